//! Lists that allocate no memory for up to two items. A board has a list for each of its tens of
//! thousands of port bits and nets, and most of these lists have one or two items.
#![tactic(auto)]

mod few;

pub use few::Few;
