//! Which words are a command.

ghost use Rattle.std.specs.Prelude.{◌≡◌, ◌∷◌, ◌&&◌, is_some, map, string_bytes};
ghost use Rattle.std.specs.List.{list_all};
ghost use Rattle.sap_words.specs.Words.{command_of as words_for, is_operand};
ghost use Rattle.sap_words.specs.Fits.{fit, fits};

use crate::number::number_of;
use crate::table::operands_of;

fn is_operand(word: &str) -> bool
    ensures { result ≡ is_operand word.now }
{
    !word.starts_with('-')
}

fn are_operands(words: &[String]) -> bool
    ensures { result ≡ list_all (λ word. is_operand (string_bytes word)) words.now }
{
    words.iter().all(|word| is_operand(word))
}

// The word gives the operand of this name a value.
fn fits(operand: &str, word: &str) -> bool
    ensures { result ≡ fits operand.now word.now }
{
    operand != "N" || number_of(word).is_some()
}

// As many words as operands, each of which gives its operand a value.
fn fit(operands: &[&str], words: &[String]) -> bool
    ensures { result ≡ fit (map (λ o. o.now) operands.now) (map string_bytes words.now) }
{
    match operands {
        [] => match words {
            [] => true,
            [_, ..] => false,
        },
        [operand, operands @ ..] => match words {
            [] => false,
            [word, words @ ..] => fits(operand, word) && fit(operands, words),
        },
    }
}

fn are_operands_of(operands: &[&str], words: &[String]) -> bool
    ensures { result ≡ (list_all (λ word. is_operand (string_bytes word)) words.now && fit (map (λ o. o.now) operands.now) (map string_bytes words.now)) }
{
    are_operands(words) && fit(operands, words)
}

// The table has a row of this name with such operands.
fn is_row(name: &str, words: &[String]) -> bool
    ensures { result ≡ is_some (words_for (name.now ∷ map string_bytes words.now)) }
{
    match operands_of(name) {
        Some(operands) => are_operands_of(operands, words),
        None => false,
    }
}

/// Whether the words are a command. It takes no memory.
pub(crate) fn is_command(words: &[String]) -> bool
    ensures { result ≡ is_some (words_for (map string_bytes words.now)) }
{
    match words {
        [name, operands @ ..] => is_row(name, operands),
        [] => false,
    }
}
