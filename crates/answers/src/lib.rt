//! The relation between a function's result and the value or fault that a definition gives. It says
//! nothing if memory ran out, because definitions do not model memory.
//!
//! The crate has only definitions (`specs/`).
#![tactic(auto)]
