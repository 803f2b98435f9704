//! Pieces of texts.

ghost use Rattle.std.specs.Prelude.{◌≡◌, ◌==◌, ◌≤◌, ◌-◌, ℕ, List, [], ◌∷◌, ◌++◌, length, take, position, count_by};
ghost use Rattle.std.specs.List.{before_first, after_first};
ghost use Rattle.sap_text.specs.Lines.{split_at};
ghost use Rattle.sap_stim.specs.Line.{fields_of, is_starred};
ghost use Rattle.sap_stim.specs.declared.TheConstants.{MOST_LINE_BYTES};

pub(crate) fn find(text: &[u8], mark: u8) -> Option<usize>
    ensures { result ≡ position (λ b. b == mark) text.now }
{
    text.iter().position(|b| *b == mark)
}

/// What stands before the first `mark`, or all where there is none, and what stands behind it.
pub fn cut(text: &[u8], mark: u8) -> (&[u8], &[u8])
    ensures before { result.0.now ≡ before_first (λ b. b == mark) text.now }
    ensures behind { result.1.now ≡ after_first (λ b. b == mark) text.now }
{
    match find(text, mark) {
        Some(at) => (&text[..at], &text[at + 1..]),
        None => (text, &text[text.len()..]),
    }
}

fn count_spaces(line: &[u8]) -> usize
    ensures { result ≡ count_by (λ b. b == 32) line.now }
{
    line.iter().filter(|b| **b == b' ').count()
}

/// What stands behind the last space of a line, or all where there is none: its last piece.
pub(crate) fn last_piece(line: &[u8]) -> &[u8]
    ensures last { (others : List (List ℕ)) × (split_at 32 line.now ≡ others ++ result.now ∷ []) }
    ensures within { length result.now ≤ length line.now }
    ensures spaces { count_by (λ b. b == 32) (take (length line.now - length result.now) line.now) ≡ count_by (λ b. b == 32) line.now }
{
    let mut start = line.len();
    while start > 0 && line[start - 1] != b' ' {
        start -= 1;
    }
    &line[start..]
}

/// Whether a piece begins with `*`.
pub(crate) fn is_starred(piece: &[u8]) -> bool
    ensures { result ≡ is_starred piece.now }
{
    !piece.is_empty() && piece[0] == b'*'
}

/// How many fields a line with this last piece has; a count is none.
pub(crate) fn count_fields(line: &[u8], piece: &[u8]) -> usize
    requires short { length line.now ≤ MOST_LINE_BYTES }
    requires last { (others : List (List ℕ)) × (split_at 32 line.now ≡ others ++ piece.now ∷ []) }
    requires within { length piece.now ≤ length line.now }
    requires spaces { count_by (λ b. b == 32) (take (length line.now - length piece.now) line.now) ≡ count_by (λ b. b == 32) line.now }
    ensures { result ≡ length (fields_of line.now) }
{
    if line.is_empty() {
        return 0;
    }
    let spaces = count_spaces(&line[..line.len() - piece.len()]);
    if is_starred(piece) {
        return spaces;
    }
    spaces + 1
}
