// An input read to its end, and a line written piece by piece, with what failed told.
#![tactic(auto)]

pub mod input;
pub mod output;
#[cfg(test)]
mod tests;
pub mod tracked;
