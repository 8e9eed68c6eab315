//! Helpers for lists: a vector whose value in contracts is the list of its items (`Items`), flags that are
//! read and set by their index, tables in which each row is a list, and pushes that append an item only if a
//! condition is true or if there is an item.
#![tactic(auto)]

mod flags;
mod items;
mod push;
mod rows;

pub use flags::{is_set, mark};
pub use items::Items;
pub use push::{push_if, push_some};
pub use rows::{blank, note, note_where};
