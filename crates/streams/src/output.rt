// A line written to an output, piece by piece: the letters, the sign and each digit in a write of its own. An output that failed is
// handed nothing more; of a `TrackedOutput` that is promised.
ghost use Rattle.std.specs.Prelude.{ℕ, ◌≡◌, List, [], ◌∷◌, ◌++◌, OnOk, ⊤, refl};
ghost use Rattle.std.specs.Io.KnownBytes.{Appends};
ghost use Rattle.std.proofs.Common.{◌∙◌};
ghost use Rattle.sorts.specs.Refusals.{refusal_number};
ghost use Rattle.frames.specs.Frames.{letters_of};
ghost use Rattle.lines.specs.Decimals.{decimal, signed};
ghost use Rattle.lines.specs.Words.{space, newline, refused_word, end_word, marks_word};
ghost use Rattle.lines.specs.Numerals.{each, last_number};
ghost use Rattle.lines.specs.declared.Said.TheVariants.{Changed};
ghost use Rattle.lines.specs.Pieces.{said_pieces, line_pieces, joined};
ghost use Rattle.streams.specs.Pieces.{Handed, Wrote, none_taken, more_taken};

use crate::tracked::TrackedOutput;
use frames::Kind;
use lines::{Line, Said, digits};
use marks::Counts;
use sorts::Refusal;
use std::io;
use std::io::Write;

// What takes pieces, each at once. It says nothing of what it is after it failed.
pub trait PieceOutput {
    // What it was, and what it is after it took these pieces in their order.
    ghost took: { Self → Self → List (List ℕ) → Type 0 };

    fn put(&mut self, piece: &[u8]) -> io::Result<()>
        ensures { OnOk result (took self.old self.new (piece.now ∷ [])) };

    ghost took_none: { (a : Self) → took a a [] };

    ghost took_more: { (a b c : Self) (ps qs : List (List ℕ)) → took a b ps → took b c qs → took a c (ps ++ qs) };
}

// An output takes the bytes of a piece; where it failed it took a beginning of them.
impl<W: Write> PieceOutput for W {
    ghost took = { λ a b ps. Appends (W.contents a) (W.contents b) (joined ps) };

    ghost took_none = { λ a. none_taken (W.contents a) };

    ghost took_more = { λ a b c ps qs x y. more_taken (W.contents a) (W.contents b) (W.contents c) ps qs x y };

    fn put(&mut self, piece: &[u8]) -> io::Result<()>
        ensures { Wrote (W.contents self.old) (W.contents self.new) (joined (piece.now ∷ [])) result }
    {
        TrackedOutput::put(self, piece)
    }
}

// Writes a number, digit by digit: no `Display`, since each digit is a write of its own.
fn write_digits<P: TrackedOutput>(out: &mut P, n: usize) -> io::Result<()>
    ensures { Handed P.took P.broke out.old out.new (each (decimal n)) result }
{
    let d = digits::count(n);
    for i in 0..d {
        out.put(&[digits::digit(n, d, i)])?;
    }
    Ok(())
}

// Writes a number, and the word after it.
fn write_number<P: TrackedOutput>(out: &mut P, n: usize, word: &[u8]) -> io::Result<()>
    ensures { Handed P.took P.broke out.old out.new (each (decimal n) ++ (word.now ∷ [])) result }
{
    write_digits(out, n)?;
    out.put(word)
}

// Writes a net after a space: its sign, then its digits.
fn write_net<P: TrackedOutput>(out: &mut P, z: i32) -> io::Result<()>
    ensures { Handed P.took P.broke out.old out.new (space ∷ each (signed z)) result }
{
    out.put(b" ")?;
    out.put(&[digits::sign(z)])?;
    write_digits(out, digits::size(z))
}

// Writes what a line says of a change, and the line's end: the letters, and the two nets.
fn write_change<P: TrackedOutput>(out: &mut P, k: Kind, c: Counts) -> io::Result<()>
    ensures { Handed P.took P.broke out.old out.new (said_pieces (Changed k c)) result }
{
    out.put(&k.letters())?;
    write_net(out, c.truths.net)?;
    write_net(out, c.sayings.net)?;
    out.put(b"\n")
}

// Writes what a line says of a query, and the line's end: the letters, and the word of the answer.
fn write_answer<P: TrackedOutput>(out: &mut P, k: Kind, word: &[u8]) -> io::Result<()>
    ensures { Handed P.took P.broke out.old out.new (letters_of k ∷ word.now ∷ newline ∷ []) result }
{
    out.put(&k.letters())?;
    out.put(word)?;
    out.put(b"\n")
}

// Writes a refusal, and the line's end.
fn write_refusal<P: TrackedOutput>(out: &mut P, k: Refusal) -> io::Result<()>
    ensures { Handed P.took P.broke out.old out.new (refused_word ∷ last_number (refusal_number k)) result }
{
    out.put(b"refused ")?;
    write_number(out, u8::from(k) as usize, b"\n")
}

// Writes what a record's line says.
fn write_said<P: TrackedOutput>(out: &mut P, s: Said) -> io::Result<()>
    ensures { Handed P.took P.broke out.old out.new (said_pieces s) result }
{
    match s {
        Said::Changed(k, c) => write_change(out, k, c),
        Said::Permitted(k) => write_answer(out, k, b" permitted"),
        Said::Open(k) => write_answer(out, k, b" open"),
        Said::NotPermitted(k) => write_answer(out, k, b" not permitted"),
        Said::Refused(k) => write_refusal(out, k),
    }
}

// Writes the last line.
fn write_end<P: TrackedOutput>(out: &mut P, n: usize, marks: usize) -> io::Result<()>
    ensures { Handed P.took P.broke out.old out.new (end_word ∷ (each (decimal n) ++ (marks_word ∷ last_number marks))) result }
{
    out.put(b"end ")?;
    write_number(out, n, b" marks ")?;
    write_number(out, marks, b"\n")
}

// Writes a line: its pieces, in their order.
pub fn write_line<P: TrackedOutput>(out: &mut P, l: Line) -> io::Result<()>
    ensures { Handed P.took P.broke out.old out.new (line_pieces l) result }
{
    match l {
        Line::Record(n, s) => {
            write_number(out, n, b" ")?;
            write_said(out, s)
        }
        Line::End(n, marks) => write_end(out, n, marks),
        Line::Refused(k) => write_refusal(out, k),
    }
}

// Lends a `PieceOutput` as a `TrackedOutput`, of which nothing is said where it failed. The reference stays the one that was lent, so that
// what it took, the lender's output took.
#[derive(Drop)]
struct Untracked<'a, P> {
    out: &'a mut P,
}

impl<'a, P: PieceOutput> TrackedOutput for Untracked<'a, P> {
    ghost took = { λ a b ps. (b.out.ghost_name ≡ a.out.ghost_name) × P.took a.out.now b.out.now ps };

    ghost broke = { λ a b ps. ⊤ };

    ghost took_none = { λ a. (refl, P.took_none a.out.now) };

    ghost took_more = { λ a b c ps qs x y. (y.0 ∙ x.0, P.took_more a.out.now b.out.now c.out.now ps qs x.1 y.1) };

    ghost broke_later = { λ a b c ps qs x y. tt };

    ghost broke_earlier = { λ a b ps qs x. tt };

    fn put(&mut self, piece: &[u8]) -> io::Result<()> {
        self.out.put(piece)
    }
}

// Writes a line, as `write_line` does, to what takes pieces and says nothing of where it failed: so nothing is promised there.
pub fn put_line<P: PieceOutput>(out: &mut P, l: Line) -> io::Result<()>
    ensures { OnOk result (P.took out.old out.new (line_pieces l)) }
{
    let mut untracked = Untracked { out };
    write_line(&mut untracked, l)
}
