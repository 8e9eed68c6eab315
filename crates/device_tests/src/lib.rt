//! Tests of reading BSDL texts, from tokens to devices and their listings, through public functions.
#![tactic(auto)]

#[cfg(test)]
mod devices;
#[cfg(test)]
mod lexing;
#[cfg(test)]
mod listing;
#[cfg(test)]
mod parsing;
#[cfg(test)]
mod rules;
#[cfg(test)]
mod sharing;
#[cfg(test)]
mod string_values;
#[cfg(test)]
mod texts;
