//! The parts of lines, by their forms.

ghost use Rattle.std.specs.Prelude.{◌≡◌, ◌++◌, ◌≤◌, ◌&&◌, true, bytes_eq, length, ℕ, List, IfNone, IfSome, codes};
ghost use Rattle.std.specs.List.{list_all};
ghost use Rattle.sap_wave.specs.Lines.{IsLine, block, change, is_formed, is_piece, variable};
ghost use Rattle.sap_wave.specs.Digits.{is_digit, number_spelled};
ghost use Rattle.sap_wave.specs.Lines.{ended};
ghost use Rattle.sap_wave.specs.Changes.{IsChangeAt, IsNoChange};
ghost use Rattle.sap_wave.specs.Pieces.{is_not};

use crate::numbers::{bits_at, id_at};
use crate::pieces::{cut_at, is_id, is_number, is_same};

/// What stands behind a text, where it begins with these bytes.
fn behind<'a>(text: &'a [u8], front: &[u8]) -> Option<&'a [u8]>
    ensures none { IfNone result ((rest : List ℕ) → text.now ≡ front.now ++ rest → ⊥) }
    ensures some { IfSome result (λ rest. text.now ≡ front.now ++ rest.now) }
{
    if text.starts_with(front) {
        Some(&text[front.len()..])
    } else {
        None
    }
}

/// The pieces of a line that declares a variable.
#[derive(Clone, Copy)]
pub struct Declaration<'a> {
    pub width: &'a [u8],
    pub id: &'a [u8],
    pub name: &'a [u8],
}

fn is_piece(text: &[u8]) -> bool
    requires { list_all (is_not 32) text.now ≡ true }
    ensures { result ≡ is_piece text.now }
{
    !text.is_empty()
}

fn is_declaration(width: &[u8], id: &[u8], name: &[u8], end: &[u8]) -> bool
    requires { list_all (is_not 32) name.now ≡ true }
    ensures { result ≡ (is_formed (variable width.now id.now name.now) && bytes_eq end.now (codes "$end")) }
{
    is_number(width) && is_id(id) && is_piece(name) && is_same(end, b"$end")
}

/// The pieces of a declaration, behind its first words.
fn declaration_behind(text: &[u8]) -> Option<Declaration<'_>>
    ensures none { IfNone result ((w i n : List ℕ) → IsLine (ended (codes "$var reg " ++ text.now)) (variable w i n) → ⊥) }
    ensures some { IfSome result (λ d. IsLine (ended (codes "$var reg " ++ text.now)) (variable d.width.now d.id.now d.name.now)) }
{
    let first = cut_at(text, b' ')?;
    let second = cut_at(first.behind, b' ')?;
    let third = cut_at(second.behind, b' ')?;
    let (width, id, name) = (first.before, second.before, third.before);
    if is_declaration(width, id, name, third.behind) {
        Some(Declaration { width, id, name })
    } else {
        None
    }
}

/// The pieces of a line that declares a variable. There is no answer where it is none.
pub fn declaration_of(text: &[u8]) -> Option<Declaration<'_>>
    ensures none { IfNone result ((w i n : List ℕ) → IsLine (ended text.now) (variable w i n) → ⊥) }
    ensures some { IfSome result (λ d. IsLine (ended text.now) (variable d.width.now d.id.now d.name.now)) }
{
    declaration_behind(behind(text, b"$var reg ")?)
}

/// The number of a line that begins a block. There is no answer where it is none.
pub fn block_number(text: &[u8]) -> Option<&[u8]>
    ensures none { IfNone result ((n : List ℕ) → IsLine (ended text.now) (block n) → ⊥) }
    ensures some { IfSome result (λ n. IsLine (ended text.now) (block n.now)) }
{
    let number = behind(text, b"#")?;
    if is_number(number) {
        Some(number)
    } else {
        None
    }
}

/// A line that sets a variable, and what stands behind it.
#[derive(Clone, Copy)]
pub struct Change<'a> {
    pub digits: &'a [u8],
    /// What the digits spell, where they are 64 at most.
    pub number: u64,
    pub id: &'a [u8],
    /// What the identifier spells, where it has nine digits at most.
    pub id_number: u64,
    pub behind: &'a [u8],
}

fn is_change(digits: &[u8], id: &[u8]) -> bool
    requires digits { list_all (is_digit 48 2) digits.now ≡ true }
    requires id { list_all (is_digit 33 94) id.now ≡ true }
    ensures { result ≡ is_formed (change digits.now id.now) }
{
    !digits.is_empty() && !id.is_empty()
}

/// The change that the first line of a text is. There is no answer where it is none.
pub fn change_at(text: &[u8]) -> Option<Change<'_>>
    ensures none { IfNone result (IsNoChange text.now) }
    ensures some { IfSome result (λ c. IsChangeAt text.now c.digits.now c.id.now c.number c.behind.now) }
    ensures id { IfSome result (λ c. length c.id.now ≤ 9 → c.id_number ≡ number_spelled c.id.now) }
{
    let bits = bits_at(behind(text, b"b")?);
    let id = id_at(behind(bits.behind, b" ")?);
    let rest = behind(id.behind, b"\n")?;
    if is_change(bits.digits, id.digits) {
        Some(Change {
            digits: bits.digits,
            number: bits.number,
            id: id.digits,
            id_number: id.number,
            behind: rest,
        })
    } else {
        None
    }
}
