//! The number N of a command: of a generated run, or of slices of the machine.

ghost use Rattle.std.specs.Prelude.{◌≡◌, true, option_map};
ghost use Rattle.std.specs.Char.{is_ascii_digit};
ghost use Rattle.std.specs.List.{list_all};
ghost use Rattle.std.specs.Str.Parse.{digits_value};
ghost use Rattle.sap_words.specs.Words.{are_few_digits, number_of};

use crate::run_number::RunNumber;

fn are_digits(text: &[u8]) -> bool
    ensures { result ≡ list_all is_ascii_digit text.now }
{
    text.iter().all(|b| b.is_ascii_digit())
}

fn are_few_digits(text: &str) -> bool
    ensures { result ≡ are_few_digits text.now }
{
    1 <= text.len() && text.len() <= 4 && are_digits(text.as_bytes())
}

fn value(digits: &str) -> u32
    requires { are_few_digits digits.now ≡ true }
    ensures { result ≡ digits_value 10 digits.now }
{
    match digits.parse::<u32>() {
        Ok(number) => number,
        Err(_) => unreachable!(),
    }
}

/// The number that the word is, if it is 1 to 1000 in one to four digits.
pub(crate) fn number_of(word: &str) -> Option<RunNumber>
    ensures { option_map (λ n. n.value) result ≡ number_of word.now }
{
    if !are_few_digits(word) {
        return None;
    }
    let value = value(word);
    if 1 <= value && value <= 1000 {
        Some(RunNumber { value })
    } else {
        None
    }
}
