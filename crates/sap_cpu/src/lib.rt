//! Assembly, and the instruction table as code: two users' programs, slice by slice; and the machine that does the same.
#![tactic(auto)]

pub mod assemble;
pub mod cpu;
pub mod law;
mod line;
pub mod machine;
mod state;
pub mod stimulus;
pub mod text;
pub mod words;
