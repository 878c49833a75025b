// The panel of a journal and the preview buffer that it leaves, for programs in other languages: numbers and lent bytes alone cross.
#![tactic(auto)]

ghost use Rattle.std.specs.Prelude.{◌≡◌, ◌++◌};
ghost use Rattle.panel_boundary.specs.Crossing.{bytes_of, Admitted, JournalPanel, Crossed, JournalPreview};

use journal::{Left, places};
use panel::Panel;
use sorts::{Number, Refusal};

// Whether a journal is read: one that is too long is not. What it leaves is no part of the answer, since a `Result` is copied as it is
// handed on, and each copy would take 120 KB of the caller's stack.
fn admit(s: &[u8]) -> Result<(), Refusal>
    ensures { Admitted s.now result }
{
    if places::over(s.len()) {
        return Err(Refusal::Length);
    }
    Ok(())
}

// The panel of principal p over the book that a journal leaves.
fn panel_after(s: &[u8], p: u8) -> Result<Panel, Refusal>
    ensures { JournalPanel s.now p result }
{
    admit(s)?;
    let mut left = Left::fresh();
    left.read(s);
    panel::show(left.book, &left.marks, &left.second, p)
}

// Two words as bytes, the first word first, and of each the high byte first. Byte by byte: `concat` takes memory, and the
// bytes of one 64-bit number would have to be shown of a shift.
fn words(a: u32, b: u32) -> [u8; 8]
    ensures { result ≡ bytes_of a ++ bytes_of b }
{
    let a = a.to_be_bytes();
    let b = b.to_be_bytes();
    [a[0], a[1], a[2], a[3], b[0], b[1], b[2], b[3]]
}

// The panel of principal p over the book that the records of a journal leave, from a fresh one. It returns 0, or the number of the
// refusal, and writes the two words: run in the first four bytes and export in the last four, each with its high byte first.
#[unsafe(no_mangle)]
pub extern "C" fn panel_of_journal(s: &[u8], p: u8, out: &mut [u8; 8]) -> u8
    ensures { Crossed s.now p result out.new }
{
    match panel_after(s, p) {
        Ok(r) => {
            *out = words(r.run, r.export);
            0
        }
        Err(k) => {
            *out = words(0, 0);
            u8::from(k)
        }
    }
}

// The preview buffer as the records of a journal leave it, from a fresh book and with every buffer 0: the marks of the last preview
// that was accepted, and 0 where none was. It returns 0, or the number of the refusal with all bytes 0.
#[unsafe(no_mangle)]
pub extern "C" fn preview_of_journal(s: &[u8], out: &mut [u8; Number::MARKS]) -> u8
    ensures { JournalPreview s.now result out.new }
{
    match admit(s) {
        Ok(()) => {
            let mut left = Left::fresh();
            left.read(s);
            let preview = left.preview;
            *out = preview;
            0
        }
        Err(refusal) => {
            *out = [0u8; Number::MARKS];
            u8::from(refusal)
        }
    }
}
