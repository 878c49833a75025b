// The reader of records.
#![tactic(auto)]

pub mod contents;
pub mod records;
