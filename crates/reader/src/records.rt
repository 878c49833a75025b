// Whole records: what a record asks, read from the content of its frame.
ghost use Rattle.std.specs.Prelude.{◌≡◌, ◌≤◌, length};
ghost use Rattle.frames.specs.Inner.Told.{longest};
ghost use Rattle.reader.specs.Inner.Numbered.{num_content};
ghost use Rattle.reader.specs.Records.{beyond};
ghost use Rattle.reader.specs.Requests.{Reads};
ghost use Rattle.reader.specs.Inner.OneRecord.{num_whole};

use crate::contents;
use crate::contents::Reading;
use frames::Kind;
use rows::{Numbering, Table};
use sorts::Refusal;

// A fault in a content: a byte that is missing there is one beyond the stated length.
fn beyond(k: Refusal) -> Refusal
    ensures { result ≡ beyond k }
{
    match k {
        Refusal::Missing => Refusal::Content,
        _ => k,
    }
}

// What was read of a content of len bytes, over the table t, as that of the whole record: it must end with these bytes.
#[tactic(auto, unfolding(crate::specs::Inner::OneRecord::num_whole))]
fn whole(t: Table, len: usize, r: Result<Reading, Refusal>) -> Reading
    requires { len ≤ longest }
    ensures { result ≡ num_whole t len r }
{
    let used = frames::HEADER + len;
    match r {
        Ok(r) if r.used == len => Reading { used, ..r },
        Ok(_) => Reading::refused(t, used, Refusal::Content),
        Err(k) => Reading::refused(t, used, beyond(k)),
    }
}

// A record of kind k with the content c.
fn read_framed(k: Kind, c: &[u8], t: Numbering) -> Reading
    requires { length c.now ≤ longest }
    ensures { result ≡ num_whole t.table (length c.now) (num_content k c.now t.table) }
{
    whole(t.table, c.len(), contents::read_content(k, c, t))
}

// The record that s starts with, over a table of grants numbered before. The count is tested here: a `TryFrom` would have this one caller.
pub fn read_record(s: &[u8], t: Table) -> Reading
    ensures { Reads s.now t result }
{
    if Table::ROWS < t.count {
        return Reading::refused(t, 0, Refusal::Form);
    }
    let numbering = Numbering {
        table: t,
        full: false,
    };
    match frames::read_frame(s) {
        Ok((k, c)) => read_framed(k, c, numbering),
        Err(k) => Reading::refused(t, 0, k),
    }
}
