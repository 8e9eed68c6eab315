//! The rules V5 to V7 on a device's instructions and patterns, as its BSDL text states them (IEEE 1149.1b-1994 and IEEE
//! 1149.1-2001, Annex B), and the codes of the two instructions that an interconnect test loads: the preload code and the EXTEST code.
#![tactic(auto)]

mod instructions;

pub use instructions::{extest, preload, wrong_instruction, wrong_opcode, wrong_pattern};
