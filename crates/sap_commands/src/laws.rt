//! What holds of all words and files.

ghost use Rattle.sap_commands.specs.Commands.{OneCause, OneOutput};

/// The words and files of a command ask for at most one text on channel 1.
pub fn one_output()
    ensures { OneOutput }
{}

/// The words and files of a command have at most one cause, so they determine its status and its line on channel 2, but for a failed call and want of memory.
pub fn one_cause()
    ensures { OneCause }
{}
