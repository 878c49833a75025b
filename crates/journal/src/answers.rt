// The lines that tell of answers.
ghost use Rattle.std.specs.Prelude.{◌≡◌};
ghost use Rattle.sorts.specs.declared.Refusal.{Refusal};
ghost use Rattle.sorts.specs.Refusals.{refusal_number};
ghost use Rattle.frames.specs.Bytes.{refused};
ghost use Rattle.frames.specs.Frames.{letters_of, read_mark};
ghost use Rattle.lines.specs.Pieces.{Carries};
ghost use Rattle.journal.specs.Lines.{letters_in, line_of, end_of, refused_line, Opened, Says};

use bookform::answer::Answer;
use frames::Kind;
use lines::{Line, Said};
use marks::standing;
use sorts::Refusal;

// The kind of the record that s starts with.
fn kind_of(s: &[u8]) -> Kind
    requires { (j : Refusal) → read_mark s.now ≡ refused j → ⊥ }
    ensures { letters_of result ≡ letters_in s.now }
{
    let Ok((k, _)) = frames::read_mark(s) else {
        unreachable!();
    };
    k
}

// What the line of the record that s starts with says of its answer.
fn saying(s: &[u8], a: Answer) -> Said
    requires { Opened s.now a }
    ensures { Says s.now a result }
{
    match a {
        Answer::Permitted => Said::Permitted(kind_of(s)),
        Answer::Open => Said::Open(kind_of(s)),
        Answer::NotPermitted => Said::NotPermitted(kind_of(s)),
        Answer::Changed(c) => Said::Changed(kind_of(s), c),
        Answer::Previewed(c) => Said::Changed(kind_of(s), c),
        Answer::Refused(k) => Said::Refused(k),
    }
}

// The line of record n, which s starts with.
pub fn record_line(n: usize, s: &[u8], a: Answer) -> Line
    requires { Opened s.now a }
    ensures { Carries result (line_of n s.now a) }
{
    Line::Record(n, saying(s, a))
}

// The line of a journal that is refused whole.
pub fn refused_line(k: Refusal) -> Line
    ensures { Carries result (refused_line (refusal_number k)) }
{
    Line::Refused(k)
}

// The last line, after n lines of records.
pub fn end_line(n: usize, marks: &[u8]) -> Line
    ensures { Carries result (end_of n marks.now) }
{
    Line::End(n, standing::standing(marks))
}
