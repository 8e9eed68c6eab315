//! Splits BSDL texts into tokens (IEEE 1149.1b-1994; IEEE 1149.1-2001, B.5).
#![tactic(auto)]

pub mod law;
mod lengths;
mod text;
mod token;

pub use text::{TOKEN_LIMIT, lex};
pub use token::{LexFault, Token, TokenKind};
