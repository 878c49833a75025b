// The lines of a listing. The pieces of each are in specs/.
#![tactic(auto)]

pub mod digits;

use frames::Kind;
use marks::Counts;
use sorts::Refusal;

// What a record's line says: the record's kind with the nets or the answer, or the refusal, which is one of the lines that document 01 lists.
#[derive(Clone, Copy)]
pub enum Said {
    Changed(Kind, Counts),
    Permitted(Kind),
    Open(Kind),
    NotPermitted(Kind),
    Refused(Refusal),
}

// A line: of a record, with its number; the last, with the count of records and of marks; of a journal that is refused whole, whose line
// document 01 has as well.
#[derive(Clone, Copy)]
pub enum Line {
    Record(usize, Said),
    End(usize, usize),
    Refused(Refusal),
}
