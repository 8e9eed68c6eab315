//! Grammars as data: the token lists that they derive, the values of these lists, and the prefixes of such lists. A
//! reader that goes through the tokens from left to right decides all three if each turn of each repetition takes at
//! least one token.
//!
//! The crate has definitions (`specs/`), their laws (`proofs/`), and functions on the bytes of one
//! token (`bytes`).
#![tactic(auto)]

mod bytes;

pub use bytes::{decimal_of, is_short_number, spells};
