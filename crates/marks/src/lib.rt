// Marks: tested, counted, and written over by new ones.
#![tactic(auto)]

pub mod bits;
mod blocks;
pub mod renewal;
pub mod standing;

// The marks of one kind of statement gained and lost in a call, and gained less lost.
#[derive(Clone, Copy)]
pub struct Change {
    pub gained: u32,
    pub lost: u32,
    pub net: i32,
}

// What changed in a call, of truths and of sayings.
#[derive(Clone, Copy)]
pub struct Counts {
    pub truths: Change,
    pub sayings: Change,
}
