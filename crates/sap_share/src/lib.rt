//! What passes over netlists share. Helping wires: their names, and the bytes that tell their right sides apart, so that equal ones can be one
//! wire. And lists by name, and sets of names.
#![tactic(auto)]

pub mod keys;
pub mod name_set;
pub mod name_table;
pub mod names;
pub mod places;
pub mod rights;
pub mod table;
