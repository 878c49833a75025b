// The reading of a journal: its records, one after another, and the line of each.
#![tactic(auto)]

pub mod answers;
pub mod places;

ghost use Rattle.std.specs.Prelude.{◌≡◌, ◌≤◌, length};
ghost use Rattle.journal.specs.Journals.{Steps, fresh_left, LeavesFrom, Leaves};

use bookform::Book;
use bookform::answer::Answered;
use lines::Line;
use sorts::Number;

// What the call on a record answered, the record's line, and where the next record starts.
#[derive(Clone, Copy)]
pub struct Stepped {
    pub answered: Answered,
    pub line: Line,
    pub next: usize,
}

// The call on the part of the journal that starts at the next record, which is record n.
pub fn step(
    b: Book,
    marks: &mut [u8],
    second: &mut [u8],
    preview: &mut [u8],
    s: &[u8],
    at: usize,
    n: usize,
) -> Stepped
    requires { at ≤ length s.now }
    ensures { Steps b marks.old second.old preview.old s.now at n result marks.new second.new preview.new }
{
    let answered = book::call(b, marks, second, preview, &s[at..]);
    let line = answers::record_line(n, &s[at..], answered.answer);
    let next = places::next_place(s.len(), at, answered.used);
    Stepped {
        answered,
        line,
        next,
    }
}

// The book that a journal leaves, the marks in both buffers, and the preview buffer.
#[derive(Clone, Copy)]
pub struct Left {
    pub book: Book,
    pub marks: [u8; Number::MARKS],
    pub second: [u8; Number::MARKS],
    pub preview: [u8; Number::MARKS],
}

impl Left {
    // A fresh book, with every buffer 0.
    pub fn fresh() -> Left
        ensures { result ≡ fresh_left }
    {
        Left {
            book: Book::new(),
            marks: [0u8; Number::MARKS],
            second: [0u8; Number::MARKS],
            preview: [0u8; Number::MARKS],
        }
    }

    // What the records of a journal leave of this book and these buffers. They are lent, since each copy of them takes 120 KB of the stack;
    // `fresh` and `left_by` alone hand them out. A loop of its own, as the listing program has one: document 01 has the loop hand on the
    // part that starts at the next record, and the program make the arrays that it lends.
    pub fn read(&mut self, s: &[u8])
        ensures { LeavesFrom self.old s.now self.new }
    {
        let mut at: usize = 0;
        while at < s.len() {
            let a = book::call(
                self.book,
                &mut self.marks,
                &mut self.second,
                &mut self.preview,
                &s[at..],
            );
            at = places::next_place(s.len(), at, a.used);
            self.book = a.book;
        }
    }
}

// What the records of a journal leave, read from a fresh book on, with every buffer 0.
pub fn left_by(s: &[u8]) -> Left
    ensures { Leaves s.now result.book result.marks result.second result.preview }
{
    let mut left = Left::fresh();
    left.read(s);
    left
}
