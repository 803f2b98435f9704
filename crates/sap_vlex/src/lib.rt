//! Cuts the text of a module into its tokens.
//!
//! `lex` gives the tokens of a text, or tells the first byte that begins none.
#![tactic(auto)]

pub mod fault;
mod lexeme;
mod lexer;
pub mod token;

pub use fault::ReadFault;
pub use lexer::lex;
