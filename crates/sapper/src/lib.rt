//! The top call: what the words of a command line ask for, done over a desk.
#![tactic(auto)]

mod call;

pub use call::sapper;
