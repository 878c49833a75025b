// Reads a journal from standard input, and writes the listing to standard output. What fails is told on standard error.
#![tactic(auto)]

ghost use Rattle.std.specs.Prelude.{ℕ, ◌≤◌, length, MatchResult, IsErr};
ghost use Rattle.std.specs.Io.KnownBytes.{Keeps};
ghost use Rattle.journal.specs.Places.{longest_journal};
ghost use Rattle.lines.specs.Pieces.{line_pieces, joined};
ghost use Rattle.listings.specs.Listings.{Follows, Finished};
ghost use Rattle.streams.specs.Pieces.{Wrote};
ghost use Rattle.listing.specs.Writing.{TookListing, TookPart, Lists, Fails};

use bookform::Book;
use journal::{answers, places};
use lines::Line;
use sorts::{Number, Refusal};
use std::io::{Read, Write};
use std::{fmt, io};
use streams::{input, output};

// What failed.
#[derive(Clone, Copy)]
enum Fault {
    Reading,
    Writing,
}

impl fmt::Display for Fault {
    fn fmt<W: fmt::Write>(&self, f: &mut fmt::Formatter<W>) -> fmt::Result {
        f.write_str(match self {
            Fault::Reading => "listing: reading failed",
            Fault::Writing => "listing: writing failed",
        })
    }
}

// How many lines the listing has, and whether the output took them all.
#[derive(Drop)]
struct Written {
    lines: usize,
    all: io::Result<()>,
}

// Writes the next line of the listing of s, where the output took those before it: one that failed is handed nothing more.
fn write_next<W: Write>(
    out: &mut W,
    before: io::Result<()>,
    s: &[u8],
    lines: usize,
    line: Line,
) -> io::Result<()>
    requires { Follows s.now lines line }
    ensures { MatchResult before (λ _. Wrote (W.contents out.old) (W.contents out.new) (joined (line_pieces line)) result) (λ _. IsErr result × Keeps (W.contents out.old) (W.contents out.new)) }
{
    before?;
    output::write_line(out, line)
}

// Reads a journal s record by record, from a fresh book, and writes a line for each, and the last line. Where the output fails the reading
// goes on. A loop of its own, as document 01 names it (see `journal::Left::read`).
fn list_records<W: Write>(out: &mut W, s: &[u8]) -> Written
    requires { length s.now ≤ longest_journal }
    ensures finished { Finished s.now result.lines }
    ensures written { MatchResult result.all (λ _. TookListing s.now (W.contents out.old) (W.contents out.new)) (λ _. TookPart s.now (W.contents out.old) (W.contents out.new)) }
{
    let mut b = Book::new();
    let mut marks = [0u8; Number::MARKS];
    let mut second = [0u8; Number::MARKS];
    let mut preview = [0u8; Number::MARKS];
    let mut at: usize = 0;
    let mut lines: usize = 0;
    let mut all = Ok(());
    while at < s.len() {
        let r = journal::step(b, &mut marks, &mut second, &mut preview, s, at, lines + 1);
        all = write_next(out, all, s, lines, r.line);
        lines += 1;
        b = r.answered.book;
        at = r.next;
    }
    let all = write_next(out, all, s, lines, answers::end_line(lines, &marks));
    Written {
        lines: lines + 1,
        all,
    }
}

// The listing of a journal s.
fn list<W: Write>(out: &mut W, s: &[u8]) -> Written
    ensures finished { Finished s.now result.lines }
    ensures written { MatchResult result.all (λ _. TookListing s.now (W.contents out.old) (W.contents out.new)) (λ _. TookPart s.now (W.contents out.old) (W.contents out.new)) }
{
    if places::over(s.len()) {
        let all = write_next(out, Ok(()), s, 0, answers::refused_line(Refusal::Length));
        return Written { lines: 1, all };
    }
    list_records(out, s)
}

// Reads a journal to the end of the input, or so far that it is seen to be too long, and writes its listing. Where a read fails nothing is
// listed.
fn run<R: Read, W: Write>(reader: &mut R, out: &mut W) -> Result<(), Fault>
    ensures { MatchResult result (λ _. Lists (R.remaining reader.old) (R.remaining reader.new) (W.contents out.old) (W.contents out.new)) (λ f. Fails f (R.remaining reader.old) (R.remaining reader.new) (W.contents out.old) (W.contents out.new)) }
{
    let mut bytes = [0u8; places::MOST + 1];
    let n = input::read_all(reader, &mut bytes).map_err(|_| Fault::Reading)?;
    list(out, &bytes[..n]).all.map_err(|_| Fault::Writing)
}

fn main(rt: HostRuntime) {
    if let Err(fault) = run(&mut rt.stdin(), &mut rt.stdout()) {
        let _ = eprintln!(rt; "{fault}");
    }
}
