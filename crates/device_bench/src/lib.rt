//! Helpers for the crates that test the reading of BSDL texts. Each helper checks a table of cases. The helpers are proved here once, and
//! their contracts do not say whether a table passes. So a test that calls a helper has little to prove.
#![tactic(auto)]

mod case;
mod devices;
mod drafts;
mod lexing;
mod listing;
mod parsing;
mod shown;
mod source;
mod strings;

pub use case::CaseFault;
pub use devices::{devices_hold, packages_hold};
pub use drafts::{Change, draft_holds, orders_hold, rules_hold};
pub use lexing::{lexings_hold, tokens_hold};
pub use listing::{cuts_hold, listing_ends, listings_hold};
pub use parsing::{Reading, entities_hold, readings_hold};
pub use source::{BUF2, DRV, Line, Source};
pub use strings::{Grammar, strings_hold, symbols_hold};
