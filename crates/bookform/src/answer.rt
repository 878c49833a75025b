// What a call answers: a refusal, and the answer of a query from its marks.
ghost use Rattle.std.specs.Prelude.{◌≡◌, ◌<◌, length};
ghost use Rattle.sorts.specs.Numbers.{number_of};
ghost use Rattle.bookform.specs.Answers.{answer_at};
ghost use Rattle.bookform.specs.Inner.Answering.{refused_with, queried};

use crate::Book;
use marks::Counts;
use rows::Table;
use sorts::{Concl, Number, Refusal};

// What a call answers: document 01 counts a refusal among the answers.
#[derive(Clone, Copy)]
pub enum Answer {
    Permitted,
    Open,
    NotPermitted,
    Changed(Counts),
    Previewed(Counts),
    Refused(Refusal),
}

// The book that a call leaves, its answer, and the bytes of the record used.
#[derive(Clone, Copy)]
pub struct Answered {
    pub book: Book,
    pub answer: Answer,
    pub used: usize,
}

// A refusal: the book stays.
pub fn refuse(b: Book, k: Refusal, used: usize) -> Answered
    ensures { result ≡ refused_with b k used }
{
    Answered {
        book: b,
        answer: Answer::Refused(k),
        used,
    }
}

// The answer for a closed conclusion, from its marks: the second is read only where the first is 0. They are slices, since the number alone
// must be below their length: an array would ask more.
// Three of the answers to a call: an enum of the three would be turned into an `Answer` at once.
pub fn answer_for(c: Concl, marks: &[u8], second: &[u8]) -> Answer
    requires { (number_of c < length marks.now) × (number_of c < length second.now) }
    ensures { result ≡ answer_at marks.now second.now (number_of c) }
{
    let i = Number::from(c).truth();
    if marks[i] == 1 {
        return Answer::Permitted;
    }
    if second[i] == 1 {
        Answer::Open
    } else {
        Answer::NotPermitted
    }
}

// qu: the book with the record's grants numbered, and the answer for the conclusion.
pub fn query(b: Book, t: Table, c: Concl, marks: &[u8], second: &[u8]) -> (Book, Answer)
    requires { (number_of c < length marks.now) × (number_of c < length second.now) }
    ensures { result ≡ queried b t c marks.now second.now }
{
    (Book { table: t, ..b }, answer_for(c, marks, second))
}
