//! The tokens of a design's text.
//!
//! `lex` cuts a text into its tokens, or says where none begins.
#![tactic(auto)]

pub mod fault;
mod key;
pub mod law;
mod lexeme;
mod lexer;
pub mod limit;
pub mod token;

pub use fault::ReadFault;
pub use lexer::lex;
pub use limit::Limit;
pub use token::{Kind, Sign, Token, Tokens};
