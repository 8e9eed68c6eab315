//! Lists of fewer than 2^32 items, and texts of fewer than 2^32 bytes. So a number of type `u32` can count the items, or the bytes and
//! lines of a text.
#![tactic(auto)]

mod slice;
mod text;

pub use slice::{ShortSlice, TextList, TextSlice};
pub use text::{ShortText, ShortTexts};
