// The contents of records: what a record of each kind asks, with its grants numbered.
ghost use Rattle.std.specs.Prelude.{◌≡◌};
ghost use Rattle.frames.specs.Bytes.{as_read};
ghost use Rattle.reader.specs.Inner.Numbered.{Makes, starting, no_r, given, known, issuer, num_entry, num_revision, num_query, num_content};

use frames::Kind;
use frames::ranges::{Cursor, Scope};
use rows::{Numbering, Table};
use sorts::{Concl, GrantNo, Prin, Refusal, Status};

// The last principal who may issue.
const LAST_ISSUER: u8 = Prin::SPEAKERS - 1;

// What a record asks, with each grant as its number: to enter or to remove a trusted grant or a licence, to make a principal's
// provisional licence firm, to preview the withdrawal of a licence, or an answer.
#[derive(Clone, Copy)]
pub enum Request {
    Enter(Status, GrantNo),
    Remove(Status, GrantNo),
    Confirm(Prin, GrantNo),
    Preview(Prin, GrantNo),
    Query(Concl),
}

// What was found of a record: its request, or its refusal; the table with its grants numbered; and the bytes that it uses.
#[derive(Clone, Copy)]
pub struct Reading {
    pub table: Table,
    pub found: Result<Request, Refusal>,
    pub used: usize,
}

impl Reading {
    // A record that is refused, which leaves the table, and uses n bytes.
    pub fn refused(table: Table, n: usize, k: Refusal) -> Reading
        ensures { result ≡ no_r table n k }
    {
        Reading {
            table,
            found: Err(k),
            used: n,
        }
    }
}

// The numbering before the first grant of a record is numbered.
fn start(t: Numbering) -> Numbering
    ensures { result ≡ starting t.table }
{
    Numbering { full: false, ..t }
}

// A request that numbers its grants, where u is the table with them; nothing is numbered where the numbers do not reach.
#[tactic(auto, unfolding(crate::specs::Inner::Numbered::given))]
fn given(table: Table, u: Numbering, q: Request, n: usize) -> Reading
    ensures { result ≡ given table u q n }
{
    if u.full {
        return Reading::refused(table, n, Refusal::Full);
    }
    Reading {
        table: u.table,
        found: Ok(q),
        used: n,
    }
}

// The number of a grant to revise, where `count` numbers were given before it was numbered: it must be one of them.
#[tactic(auto, unfolding(crate::specs::Inner::Numbered::known))]
fn known(count: usize, full: bool, no: GrantNo) -> Result<GrantNo, Refusal>
    ensures { result ≡ known count full no }
{
    if full || count <= no.0 as usize {
        return Err(Refusal::Absent);
    }
    Ok(no)
}

// Each of the next reads what follows in a content, over the table of the grants numbered before; a fault ends it.

// A grant to enter, numbered where it is new.
#[tactic(auto, unfolding(crate::specs::Inner::Numbered::num_entry))]
fn read_entry(c: Cursor, by: Status, t: Numbering) -> Result<Reading, Refusal>
    ensures { result ≡ num_entry by c.entry.bytes.now c.entry.at t.table }
{
    let mut u = start(t);
    let (no, c) = canonread::read_grant(c, &mut u)?;
    Ok(given(t.table, u, Request::Enter(by, no), c.at))
}

// A grant to revise, and what is asked of its number; nothing is numbered.
fn read_revision<F: FnOnce(GrantNo) -> Request>(
    c: Cursor,
    asks: F,
    t: Numbering,
) -> Result<Reading, Refusal>
    requires { F.IsAlwaysCallable asks }
    ensures { (q : GrantNo → Request) → Makes (F.post asks) q → result ≡ num_revision q c.entry.bytes.now c.entry.at t.table }
{
    let mut u = start(t);
    let (no, c) = canonread::read_grant(c, &mut u)?;
    Ok(Reading {
        table: t.table,
        found: known(t.table.count, u.full, no).map(asks),
        used: c.at,
    })
}

// The closed conclusion of a query, its grants numbered where they are new.
#[tactic(auto, unfolding(crate::specs::Inner::Numbered::num_query))]
fn read_query(c: Cursor, t: Numbering) -> Result<Reading, Refusal>
    ensures { result ≡ num_query c.entry.bytes.now c.entry.at t.table }
{
    let nothing = Scope { prins: 0, res: 0 };
    let mut u = start(t);
    let (what, c) = canonread::read_concl(c, nothing, &mut u)?;
    Ok(given(t.table, u, Request::Query(what), c.at))
}

// The issuer, with which a content on a licence begins.
#[tactic(auto, unfolding(crate::specs::Inner::Numbered::issuer))]
fn read_issuer<'a>(c: Cursor<'a>) -> Result<(Prin, Cursor<'a>), Refusal>
    ensures { result ≡ as_read c.entry issuer }
{
    let (p, c) = c.upto(LAST_ISSUER)?;
    Ok((Prin(p), c))
}

// What a record of kind k with the content c asks, over the table of t; or the first fault in the content.
#[tactic(auto, unfolding(crate::specs::Inner::Numbered::num_content))]
pub fn read_content(k: Kind, c: &[u8], t: Numbering) -> Result<Reading, Refusal>
    ensures { result ≡ num_content k c.now t.table }
{
    let c = Cursor { bytes: c, at: 0 };
    match k {
        Kind::Tg => read_entry(c, Status::Trusted, t),
        Kind::St => read_revision(c, |no| Request::Remove(Status::Trusted, no), t),
        Kind::Li => {
            let (p, c) = read_issuer(c)?;
            read_entry(c, Status::Issued(p), t)
        }
        Kind::Wd => {
            let (p, c) = read_issuer(c)?;
            read_revision(c, |no| Request::Remove(Status::Issued(p), no), t)
        }
        Kind::Qu => read_query(c, t),
        Kind::Pl => {
            let (p, c) = read_issuer(c)?;
            read_entry(c, Status::Provisional(p), t)
        }
        Kind::Cf => {
            let (p, c) = read_issuer(c)?;
            read_revision(c, |no| Request::Confirm(p, no), t)
        }
        Kind::Pv => {
            let (p, c) = read_issuer(c)?;
            read_revision(c, |no| Request::Preview(p, no), t)
        }
    }
}
