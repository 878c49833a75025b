// Words of 64 bits: single bits, and where a conclusion stands among the words.
#![tactic(auto)]

pub mod bits;
pub mod flagwords;
pub mod markwords;
pub mod place;
