//! A table that has, for each port bit of each part of a board, the entries of the part's boundary register
//! that name this port bit. Functions find driving entries, receivers, dark pins and guarded nets in this
//! table, without a search through all entries of a part. A dark pin may drive its net although no setting
//! controls it. A net is guarded if it carries a supply, or has a pin of a test access port, a pin that
//! compliance patterns name, or a dark pin.
#![tactic(auto)]

mod bit_entries;
mod pins;
mod table;

pub use bit_entries::BitEntries;
pub use pins::{driving_entry, has_dark_pin, is_guarded, receives};
pub use table::{entries_at, port_entries};
