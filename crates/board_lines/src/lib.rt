//! The contents of a board's files: the parts of the chain, the entity of each DEVICE line, the
//! names of the nets, the words that name pins, and the nets that are pulled. The crate also checks
//! the rules on the parts of the chain and on the INERT, SUPPLY and PULL lines.
#![tactic(auto)]

mod fault;
mod limit;
mod line_rules;
mod names;
mod parts;
mod pin_rows;
mod places;
mod selection;
mod words;

pub use fault::BoardFault;
pub use limit::{Limit, limit_name};
pub use line_rules::{line_fault, names_in, pull_of_net, pulls_by_net, pulls_of};
pub use names::{Naming, first_places_of, place_of};
pub use parts::{chain_parts, described_names};
pub use pin_rows::bits_of;
pub use places::PinPlaces;
pub use selection::select;
pub use words::{NetNames, NetWord, PinName, net_names, net_words, once_words};
