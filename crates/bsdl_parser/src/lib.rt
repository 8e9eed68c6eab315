//! The grammar of BSDL texts, as far as an interconnect test needs it (IEEE 1149.1b-1994 and IEEE 1149.1-2001, Annex
//! B), and the entity that a text describes.
#![tactic(auto)]

mod answer;
mod attributes;
mod cursor;
mod draft;
mod entity;
mod fault;
mod file;
mod items;
pub mod law;
mod numbers;
mod ports;
mod stop;
mod strings;

pub use answer::parse;
pub use entity::{Attr, AttrValue, Attribute, Constant, Entity, Port, Range};
pub use fault::ParseFault;
