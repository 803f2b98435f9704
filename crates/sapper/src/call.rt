//! The top call.

ghost use Rattle.std.specs.Prelude.{◌≡◌, ◌≢◌, ◌⊎◌, None, map, string_bytes, is_some, IfSome};
ghost use Rattle.sap_desk.specs.Cause.{counted};
ghost use Rattle.sap_desk.specs.Whole.{Between, LostAtMostOne};
ghost use Rattle.sap_commands.specs.Commands.{asks_for};
ghost use Rattle.sap_words.specs.Words.{IsTwin, command_of as words_for};
ghost use Rattle.sapper.specs.Answers.{Answers, MayAnswer};
ghost use Rattle.sap_files.specs.Ending.{failed, line_of, refused, stimulus_refused};
ghost use Rattle.sapper.specs.Exact.{Exact};
ghost use Rattle.sapper.specs.Explains.{Explains};
ghost use Rattle.sapper.specs.Headline.{Headline};
ghost use Rattle.sapper.specs.Lines.{Reports, Tells};
ghost use Rattle.sapper.specs.Links.{Links};
ghost use Rattle.sapper.specs.Machines.{Machines};
ghost use Rattle.sapper.specs.Outside.{Outside, FullLines};
ghost use Rattle.sapper.specs.Taints.{Taints};
ghost use Rattle.sapper.specs.Tidy.{WritesWellMade};
ghost use Rattle.sapper.specs.Waves.{Unwaves, Waves};
ghost use Rattle.sap_files.specs.Steps.{Ends, ending, ending_of, reason, seen};

use sap_commands::perform;
use sap_desk::{Desk, write_line};
use sap_files::failure::Failure;
use sap_files::refusal::Refusal;
use sap_stim::StimFault;
use sap_text::digits::Digits;
use sap_words::command_of;
use std::alloc::Global;

// Writes a fault line in one piece, its end included.
fn tell<D: Desk>(desk: &mut D, line: &[u8])
    ensures { Tells line.now (seen D.told D.faults D.lost D.sure desk.old) (seen D.told D.faults D.lost D.sure desk.new) }
{
    let _ = desk.write(2, line);
}

// Tells that a call failed on the file of this name, or on the output. It takes no memory.
fn tell_desk<D: Desk>(desk: &mut D, name: &str)
    ensures { Tells (line_of (failed name.now)) (seen D.told D.faults D.lost D.sure desk.old) (seen D.told D.faults D.lost D.sure desk.new) }
{
    let _ = write_line(desk, &[b"desk: ", name.as_bytes()]);
}

// Tells that a line of a stimulus is refused. It takes no memory.
fn tell_stimulus<D: Desk>(desk: &mut D, place: u64, fault: &StimFault)
    ensures { Tells (line_of (refused (stimulus_refused place fault.now))) (seen D.told D.faults D.lost D.sure desk.old) (seen D.told D.faults D.lost D.sure desk.new) }
{
    let place = Digits::new(place);
    let code = Digits::new(u64::from(fault.code.number()));
    let line = Digits::new(fault.line);
    let _ = write_line(
        desk,
        &[
            b"stimulus ",
            place.as_bytes(),
            b": S",
            code.as_bytes(),
            b" line ",
            line.as_bytes(),
        ],
    );
}

// Tells a refusal on channel 2, and gives its status.
fn report_refusal<D: Desk>(alloc: Global, desk: &mut D, why: &Refusal<'_>) -> u8
    ensures { Reports (refused (reason why.now)) result (seen D.told D.faults D.lost D.sure desk.old) (seen D.told D.faults D.lost D.sure desk.new) }
{
    match why {
        Refusal::Stimulus(place, fault) => {
            tell_stimulus(desk, *place, fault);
            4
        }
        _ => match format!(in alloc; "{why}\n") {
            Ok(line) => {
                tell(desk, line.as_bytes());
                why.status()
            }
            Err(_) => {
                tell(desk, b"memory\n");
                7
            }
        },
    }
}

// Tells a failure on channel 2, and gives its status.
fn report<D: Desk>(alloc: Global, desk: &mut D, failure: &Failure<'_>) -> u8
    ensures { Reports (ending failure.now) result (seen D.told D.faults D.lost D.sure desk.old) (seen D.told D.faults D.lost D.sure desk.new) }
{
    match failure {
        Failure::Refused(why) => report_refusal(alloc, desk, why),
        Failure::Desk(name) => {
            tell_desk(desk, name);
            6
        }
        Failure::PartFile(name) => {
            tell_desk(desk, name.as_str());
            6
        }
        Failure::Memory => {
            tell(desk, b"memory\n");
            7
        }
    }
}

// Does what the words ask, where they are a command.
fn ask<'a, D: Desk>(
    alloc: Global,
    desk: &mut D,
    words: &'a [String],
) -> Option<Result<(), Failure<'a>>>
    ensures asked { IfSome result (λ end. Ends (asks_for (map string_bytes words.now)) (ending_of end) (seen D.told D.faults D.lost D.sure desk.old) (seen D.told D.faults D.lost D.sure desk.new)) }
    ensures command { is_some result ≡ is_some (words_for (map string_bytes words.now)) }
    ensures none { result ≡ None → words_for (map string_bytes words.now) ≡ None }
    ensures nothing { result ≡ None → desk.new ≡ desk.old }
{
    match command_of(alloc, words) {
        Ok(Some(command)) => Some(perform(alloc, desk, command)),
        Ok(None) => None,
        Err(_) => Some(Err(Failure::Memory)),
    }
}

/// Does what the words ask over a desk, and answers the status.
pub fn sapper<D: Desk>(alloc: Global, words: &[String], desk: &mut D) -> u8
    ensures headline { Between (D.told desk.old) (D.told desk.new) (Headline (map string_bytes words.now) result) }
    ensures links { Between (D.told desk.old) (D.told desk.new) (Links (map string_bytes words.now) (D.lost desk.old) (D.lost desk.new) result) }
    ensures tidy { Between (D.told desk.old) (D.told desk.new) (WritesWellMade (map string_bytes words.now) result) }
    ensures explains { Between (D.told desk.old) (D.told desk.new) (Explains (map string_bytes words.now) result) }
    ensures taints { Between (D.told desk.old) (D.told desk.new) (Taints (map string_bytes words.now) (D.lost desk.old) (D.lost desk.new) result) }
    ensures waves { Between (D.told desk.old) (D.told desk.new) (Waves (map string_bytes words.now) result) }
    ensures unwaves { Between (D.told desk.old) (D.told desk.new) (Unwaves (map string_bytes words.now) (D.lost desk.old) (D.lost desk.new) result) }
    ensures machines { Between (D.told desk.old) (D.told desk.new) (Machines (map string_bytes words.now) (D.lost desk.old) (D.lost desk.new) result) }
    ensures answers { Between (D.told desk.old) (D.told desk.new) (Answers (map string_bytes words.now) (D.lost desk.old) (D.lost desk.new) result) }
    ensures exact { IfSome (D.told desk.old) (λ t. Exact (map string_bytes words.now) t result) }
    ensures outside { (D.faults desk.new ≢ D.faults desk.old) → D.sure desk.old → Between (D.told desk.old) (D.told desk.new) (Outside (map string_bytes words.now)) }
    ensures channel_2_full { (D.lost desk.new ≢ D.lost desk.old) → D.sure desk.old → Between (D.told desk.old) (D.told desk.new) FullLines }
    // Over every desk.
    ensures failed { result ≡ 6 → D.faults desk.new ≡ counted (D.faults desk.old) }
    ensures counted { (result ≢ 6) → D.faults desk.new ≡ D.faults desk.old }
    ensures refused { words_for (map string_bytes words.now) ≡ None → result ≡ 2 }
    ensures possible { MayAnswer (map string_bytes words.now) result }
    ensures words { result ≡ 2 → (words_for (map string_bytes words.now) ≡ None) ⊎ IsTwin (words_for (map string_bytes words.now)) }
    // Of all the calls on channel 2 at most one fails, and none where it is done.
    ensures lost { LostAtMostOne (D.lost desk.old) (D.lost desk.new) }
    ensures silent { result ≡ 0 → D.lost desk.new ≡ D.lost desk.old }
    ensures sure { D.sure desk.old → D.sure desk.new }
{
    match ask(alloc, desk, words) {
        Some(Ok(())) => 0,
        Some(Err(failure)) => report(alloc, desk, &failure),
        None => {
            tell(desk, b"words\n");
            2
        }
    }
}
