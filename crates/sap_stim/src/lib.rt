//! Stimulus files, line by line, and the rows of a run.
//!
//! `parse_stream` reads the lines of a stimulus file before the first that is refused, and says which
//! one that is and why. `push_row`, `row` and `row_into` print a cycle's registers;
//! `labelled_row_into` does so with the labels of registers and texts of levels made beforehand, and a front that is kept.
#![tactic(auto)]

mod ahead;
mod along;
mod count;
pub mod fault;
pub mod field;
mod flat;
pub mod head;
pub mod label;
mod line;
mod room;
pub mod rows;
mod short;
pub mod stimulus;
mod text;
mod value;

ghost use Rattle.sap_stim.specs.Fits.{StimulusFits};
ghost use Rattle.sap_stim.specs.Examples as examples;

pub use fault::{StimCode, StimFault};
pub use field::{Field, Fields};
pub use head::RowHead;
pub use label::{RowLabel, labels_of, level_texts};
pub use line::{line_ahead, read_line_into};
pub use room::{longest_level, row_array, row_room};
pub use rows::{labelled_row_into, push_row, row, row_into};
pub use short::Short;
pub use stimulus::{Parsed, parse_stream};
pub use text::cut;

/// The largest number of bytes in a line, without its LF.
pub const MOST_LINE_BYTES: usize = 65_536;

/// The largest number of cycles for which a line can stand.
pub const MOST_COUNT: u64 = 65_535;

/// The largest number of digits in the count of a line.
pub const MOST_COUNT_DIGITS: usize = 5;

/// The largest number of digits in a value.
pub const MOST_DIGITS: usize = 20;

/// Every line of what a stimulus gives fits its fields.
pub fn stimulus_fits()
    ensures { StimulusFits }
{}

/// What small stimulus files give, and rows, worked out.
pub fn worked_texts()
    ensures empty { examples.Empty }
    ensures two_lines { examples.TwoLines }
    ensures not_ended { examples.NotEnded }
    ensures too_large { examples.TooLarge }
    ensures unknown_level { examples.UnknownLevel }
    ensures no_level { examples.NoLevel }
    ensures no_field { examples.NoField }
    ensures trailing_space { examples.TrailingSpace }
    ensures two_marks { examples.TwoMarks }
    ensures plain_field { examples.PlainField }
    ensures marked_plain { examples.MarkedPlain }
    ensures two_fields { examples.TwoFields }
    ensures two_spaces { examples.TwoSpaces }
    ensures empty_field { examples.EmptyField }
    ensures too_long { examples.TooLong }
    ensures long_enough { examples.LongEnough }
    ensures counted { examples.Counted }
    ensures no_cycle { examples.NoCycle }
    ensures too_many { examples.TooMany }
    ensures no_digits { examples.NoDigits }
    ensures six_digits { examples.SixDigits }
    ensures five_digits { examples.FiveDigits }
    ensures field_first { examples.FieldFirst }
    ensures count_alone { examples.CountAlone }
    ensures count_within { examples.CountWithin }
    ensures count_behind_space { examples.CountBehindSpace }
    ensures two_counts { examples.TwoCounts }
    ensures no_inputs { examples.NoInputs }
    ensures row { examples.Row }
    ensures row_of_tags { examples.RowOfTags }
{}
