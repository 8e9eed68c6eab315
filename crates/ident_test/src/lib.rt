//! The identity test: right after a reset, it reads the identification codes of the parts of a
//! chain and compares them with the patterns in the parts' descriptions.
#![tactic(auto)]

mod ident;
pub mod law;

pub use ident::write_ident;
