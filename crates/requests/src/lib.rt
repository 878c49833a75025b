// What was read of a record, done.
#![tactic(auto)]

mod renewing;
mod revising;

ghost use Rattle.std.specs.Prelude.{◌≡◌};
ghost use Rattle.requests.specs.Inner.Buffers.{firm_marks, both_marks};
ghost use Rattle.requests.specs.Inner.Apply.{Ready, done, applied, marks_applied, preview_applied};

use bookform::answer::{Answer, Answered, refuse};
use bookform::{Book, answer};
use reader::contents::{Reading, Request};
use sorts::{Number, Refusal};

// What a record asks, done: the book after it and the answer, or why it is refused. Here and below each buffer is handed on by itself, as in
// `book::call`: the contracts say of each what it is after.
#[tactic(auto, unfolding(crate::specs::Inner::Apply::done, crate::specs::Inner::Apply::marks_applied, crate::specs::Inner::Apply::preview_applied))]
fn act(
    b: Book,
    r: Reading,
    marks: &mut [u8; Number::MARKS],
    second: &mut [u8; Number::MARKS],
    preview: &mut [u8; Number::MARKS],
) -> Result<(Book, Answer), Refusal>
    requires { Ready b r }
    ensures value { result ≡ done b marks.old second.old r }
    ensures marks { marks.new ≡ marks_applied firm_marks b marks.old r }
    ensures second { second.new ≡ marks_applied both_marks b second.old r }
    ensures preview { preview.new ≡ preview_applied b preview.old r }
{
    match r.found? {
        Request::Enter(by, no) => Ok(revising::enter(b, r.table, by, no, marks, second)),
        Request::Remove(by, no) => revising::remove(b, by, no, marks, second),
        Request::Confirm(p, no) => revising::confirm(b, p, no, marks, second),
        Request::Preview(p, no) => revising::show_removed(b, p, no, marks, preview),
        Request::Query(c) => Ok(answer::query(b, r.table, c, marks, second)),
    }
}

// The answer to a record that was read, with the bytes used; a refusal leaves the book.
#[tactic(auto, unfolding(crate::specs::Inner::Apply::applied))]
pub fn apply(
    b: Book,
    r: Reading,
    marks: &mut [u8; Number::MARKS],
    second: &mut [u8; Number::MARKS],
    preview: &mut [u8; Number::MARKS],
) -> Answered
    requires { Ready b r }
    ensures value { result ≡ applied b marks.old second.old r }
    ensures marks { marks.new ≡ marks_applied firm_marks b marks.old r }
    ensures second { second.new ≡ marks_applied both_marks b second.old r }
    ensures preview { preview.new ≡ preview_applied b preview.old r }
{
    match act(b, r, marks, second, preview) {
        Ok((book, answer)) => Answered {
            book,
            answer,
            used: r.used,
        },
        Err(k) => refuse(b, k, r.used),
    }
}
