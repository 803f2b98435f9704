//! Rows of tests: calls with what has to come of them, read from a table's text, the runs that a row asks for, and the
//! lines that tell how a run differs from its row.
#![tactic(auto)]

mod blocks;
mod draft;
mod fitting;
mod judging;
mod reading;
mod refusal;
mod runs;
mod seen;
mod showing;
mod table;
mod texts;
mod turns;

pub use reading::read_table;
pub use refusal::{Refusal, Why};
pub use runs::{Circumstance, behind, bytes_put, further_run, further_runs, steps_of};
pub use seen::Seen;
pub use showing::{push_counts, push_difference, push_refusal};
pub use table::{Answer, Comparison, Cut, File, Held, Row, State, Step, Target, Wanted, bytes_of};
