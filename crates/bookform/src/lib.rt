// A book, a fresh one, and whether a book that is lent is in form.
#![tactic(auto)]

pub mod answer;
pub mod flags;

ghost use Rattle.std.specs.Prelude.{◌≡◌};
ghost use Rattle.sorts.specs.Decides.{Decides};
ghost use Rattle.bookform.specs.Books.{fresh_book, MarksForm, BookForm};

use crate::flags::changes;
use marks::bits;
use rows::Table;
use sorts::{Number, Row, Status};

// The grant table, and how each of its grants stands: the flags of each row. A flag is a byte, since a book that is lent may hold any.
#[derive(Clone, Copy)]
pub struct Book {
    pub table: Table,
    pub flags: [u8; Status::ALL],
}

impl Book {
    // A fresh book.
    pub fn new() -> Book
        ensures { result ≡ fresh_book }
    {
        let rows = [Row::blank(); Table::ROWS];
        Book {
            table: Table { rows, count: 0 },
            flags: [0; Status::ALL],
        }
    }
}

// Whether marks that are lent are as many as there are, each 0 or 1.
fn marks_ok(marks: &[u8]) -> bool
    ensures { Decides result (MarksForm marks.now) }
{
    if marks.len() != Number::MARKS {
        return false;
    }
    bits::bits(marks)
}

// Whether the book and the two buffers of marks lent with it are in form.
pub fn in_form(b: Book, marks: &[u8], second: &[u8]) -> bool
    ensures { Decides result (BookForm b marks.now second.now) }
{
    marks_ok(marks)
        && marks_ok(second)
        && form::table_in_form(b.table)
        && ascending::conditions_ascend(b.table)
        && bits::bits(&b.flags)
        && bits::zero_from(&b.flags, Status::FLAGS * b.table.count)
        && changes::apart(&b.flags, b.table.count)
}
