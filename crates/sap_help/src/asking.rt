//! What may be asked of the program beside its commands.

ghost use Rattle.std.specs.Prelude.{◌≡◌, ◌≢◌, ◌⊎◌, [], ◌∷◌, ◌++◌, IfSome, Some, None, true, is_some, map, string_bytes, option_map, false};
ghost use Rattle.std.specs.Option.{option_map_or};
ghost use Rattle.sap_desk.specs.Cause.{counted};
ghost use Rattle.sap_desk.specs.Desk.{added};
ghost use Rattle.sap_desk.specs.Whole.{Between, Gained, LostAtMostOne};
ghost use Rattle.sap_help.specs.Questions.{Asked, IsAnswer, IsAnswered, IsCutOff, IsStatus, Untouched, asked_by, asked_of, is_help, is_unknown, line_at};

use crate::explaining::explain;
use crate::page::{VERSION, help};
use sap_desk::{Desk, write_line, write_output};
use std::alloc::Global;

/// What is asked: the help, the version, or what a code means.
#[derive(Clone, Copy)]
pub(crate) enum Question<'a> {
    Help,
    Version,
    Explanation(&'a str),
}

fn is_help(word: &str) -> bool
    ensures { result ≡ is_help word.now }
{
    word == "--help" || word == "-h" || word == "help"
}

fn of_one_word<'a>(word: &str) -> Option<Question<'a>>
    ensures { option_map asked_of result ≡ asked_by (word.now ∷ []) }
{
    if is_help(word) {
        Some(Question::Help)
    } else if word == "--version" {
        Some(Question::Version)
    } else {
        None
    }
}

fn of_two_words<'a>(word: &str, code: &'a str) -> Option<Question<'a>>
    ensures { option_map asked_of result ≡ asked_by (word.now ∷ code.now ∷ []) }
{
    if word == "--explain" {
        Some(Question::Explanation(code))
    } else {
        None
    }
}

fn question_of<'a>(words: &'a [String]) -> Option<Question<'a>>
    ensures { option_map asked_of result ≡ asked_by (map string_bytes words.now) }
{
    match words {
        [word] => of_one_word(word),
        [word, code] => of_two_words(word, code),
        _ => None,
    }
}

// Writes a line on channel 2.
#[tactic(auto, using(crate::proofs::Channels::quiet_line))]
fn tell<D: Desk>(desk: &mut D, line: &[u8])
    ensures quiet { Between (D.told desk.old) (D.told desk.new) Untouched }
    ensures line { Between (D.told desk.old) (D.told desk.new) (Gained (line.now ++ 10 ∷ []) (D.lost desk.old) (D.lost desk.new)) }
    ensures lost { LostAtMostOne (D.lost desk.old) (D.lost desk.new) }
    ensures faults { D.faults desk.new ≡ D.faults desk.old }
    ensures sure { D.sure desk.old → D.sure desk.new }
{
    let _ = write_line(desk, &[line]);
}

// Writes a text on channel 1.
#[tactic(auto, using(crate::proofs::Channels::cut_off))]
fn put<D: Desk>(desk: &mut D, text: &str) -> u8
    ensures done { result ≡ 0 → D.told desk.new ≡ option_map (added 1 text.now) (D.told desk.old) }
    ensures not_refused { result ≢ 2 }
    ensures status { (result ≡ 0) ⊎ (result ≡ 6) }
    ensures cut { result ≡ 6 → (asked : Asked) → IsAnswer asked text.now → Between (D.told desk.old) (D.told desk.new) (IsCutOff asked) }
    ensures line { Between (D.told desk.old) (D.told desk.new) (Gained (line_at result) (D.lost desk.old) (D.lost desk.new)) }
    ensures lost { LostAtMostOne (D.lost desk.old) (D.lost desk.new) }
    ensures silent { result ≡ 0 → D.lost desk.new ≡ D.lost desk.old }
    ensures failed { result ≡ 6 → D.faults desk.new ≡ counted (D.faults desk.old) }
    ensures counted { result ≢ 6 → D.faults desk.new ≡ D.faults desk.old }
    ensures sure { D.sure desk.old → D.sure desk.new }
{
    match write_output(desk, text.as_bytes()) {
        Ok(()) => 0,
        Err(_) => {
            tell(desk, b"desk: output");
            6
        }
    }
}

fn reply<D: Desk>(alloc: Global, desk: &mut D, question: Question<'_>) -> u8
    ensures unknown { is_unknown (asked_of question.entry) ≡ true → result ≡ 2 }
    ensures known { is_unknown (asked_of question.entry) ≡ false → result ≢ 2 }
    ensures done { result ≡ 0 → IsAnswered (asked_of question.entry) (D.told desk.old) (D.told desk.new) }
    ensures status { IsStatus result }
    ensures cut { result ≡ 6 → Between (D.told desk.old) (D.told desk.new) (IsCutOff (asked_of question.entry)) }
    ensures quiet { result ≢ 0 → result ≢ 6 → Between (D.told desk.old) (D.told desk.new) Untouched }
    ensures line { Between (D.told desk.old) (D.told desk.new) (Gained (line_at result) (D.lost desk.old) (D.lost desk.new)) }
    ensures lost { LostAtMostOne (D.lost desk.old) (D.lost desk.new) }
    ensures silent { result ≡ 0 → D.lost desk.new ≡ D.lost desk.old }
    ensures failed { result ≡ 6 → D.faults desk.new ≡ counted (D.faults desk.old) }
    ensures counted { result ≢ 6 → D.faults desk.new ≡ D.faults desk.old }
    ensures sure { D.sure desk.old → D.sure desk.new }
{
    match question {
        Question::Help => match help(alloc) {
            Ok(text) => put(desk, text.as_str()),
            Err(_) => {
                tell(desk, b"memory");
                7
            }
        },
        Question::Version => put(desk, VERSION),
        Question::Explanation(code) => match explain(code) {
            Some(text) => put(desk, text),
            None => {
                tell(desk, b"words");
                2
            }
        },
    }
}

/// Where the words ask for the help, the version or a code: writes the answer on channel 1, and gives the status.
pub fn answer<D: Desk>(alloc: Global, desk: &mut D, words: &[String]) -> Option<u8>
    ensures asked { is_some result ≡ is_some (asked_by (map string_bytes words.now)) }
    ensures unknown { option_map_or is_unknown (asked_by (map string_bytes words.now)) false ≡ true → result ≡ Some 2 }
    ensures known { option_map_or is_unknown (asked_by (map string_bytes words.now)) true ≡ false → result ≢ Some 2 }
    ensures done { result ≡ Some 0 → IfSome (asked_by (map string_bytes words.now)) (λ asked. IsAnswered asked (D.told desk.old) (D.told desk.new)) }
    // A write that fails leaves a part of the answer and blames the output; a word that is no code, and want of memory, leave files and channel 1.
    // What is open stays so.
    ensures status { IfSome result IsStatus }
    ensures cut { result ≡ Some 6 → IfSome (asked_by (map string_bytes words.now)) (λ asked. Between (D.told desk.old) (D.told desk.new) (IsCutOff asked)) }
    ensures quiet { result ≢ Some 0 → result ≢ Some 6 → Between (D.told desk.old) (D.told desk.new) Untouched }
    // Channel 2 gains exactly the line of the status, or a part of it where a call on it failed; at most one fails.
    ensures line { IfSome result (λ status. Between (D.told desk.old) (D.told desk.new) (Gained (line_at status) (D.lost desk.old) (D.lost desk.new))) }
    ensures lost { LostAtMostOne (D.lost desk.old) (D.lost desk.new) }
    ensures silent { result ≡ Some 0 → D.lost desk.new ≡ D.lost desk.old }
    ensures failed { result ≡ Some 6 → D.faults desk.new ≡ counted (D.faults desk.old) }
    ensures counted { result ≢ Some 6 → D.faults desk.new ≡ D.faults desk.old }
    ensures sure { D.sure desk.old → D.sure desk.new }
    // Where they ask for none of it nothing is done.
    ensures other { result ≡ None → desk.new ≡ desk.old }
{
    match question_of(words) {
        Some(question) => Some(reply(alloc, desk, question)),
        None => None,
    }
}
