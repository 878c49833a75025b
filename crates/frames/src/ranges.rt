// One byte at a time: the lists and ranges of document 01, each in one place.
ghost use Rattle.std.specs.Prelude.{◌≡◌};
ghost use Rattle.frames.specs.Bytes.{as_read, with_cursor, byte_at, declared, upto, principal, pack, tag, header};

use sorts::{Pack, Prin, Refusal, Row};

// The variables that a grant declares: how many of principals, and the resource variable (0 none, 1 over grants, 2 over packs). Bytes, since
// they go into the row as they are.
#[derive(Clone, Copy)]
pub struct Scope {
    pub prins: u8,
    pub res: u8,
}

// What the three bytes that open a grant say: what it declares, and how many conditions it has. A row has the three as fields of its
// own, as document 01 lists them.
#[derive(Clone, Copy)]
pub struct Header {
    pub scope: Scope,
    pub count: u8,
}

// The bytes of a record, and the place from which on they are read.
#[derive(Clone, Copy)]
pub struct Cursor<'a> {
    pub bytes: &'a [u8],
    pub at: usize,
}

// A listed variable byte, which is good where the variable is declared; c is the cursor after it.
fn variable<'a>(is: bool, b: u8, c: Cursor<'a>) -> Result<(u8, Cursor<'a>), Refusal>
    ensures { result ≡ with_cursor c.entry (declared is b c.entry.at) }
{
    is.then_some((b, c)).ok_or(Refusal::Variable)
}

// Each reader finds a value with the cursor after it, or the first fault.
impl<'a> Cursor<'a> {
    // The byte at the place.
    #[tactic(auto, unfolding(crate::specs::Bytes::byte_at))]
    fn byte(self) -> Result<(u8, Cursor<'a>), Refusal>
        ensures { result ≡ as_read self.entry byte_at }
    {
        if self.at < self.bytes.len() {
            let after = Cursor {
                at: self.at + 1,
                ..self
            };
            Ok((self.bytes[self.at], after))
        } else {
            Err(Refusal::Missing)
        }
    }

    // A byte that is at most `most`.
    #[tactic(auto, unfolding(crate::specs::Bytes::upto))]
    pub fn upto(self, most: u8) -> Result<(u8, Cursor<'a>), Refusal>
        ensures { result ≡ as_read self.entry (upto most) }
    {
        let (b, c) = self.byte()?;
        if b <= most {
            Ok((b, c))
        } else {
            Err(Refusal::Range)
        }
    }

    // A principal, or a variable that is declared.
    #[tactic(auto, unfolding(crate::specs::Bytes::principal))]
    pub fn prin(self, v: Scope) -> Result<(u8, Cursor<'a>), Refusal>
        ensures { result ≡ as_read self.entry (principal v) }
    {
        let (b, c) = self.byte()?;
        if b < Prin::COUNT {
            return Ok((b, c));
        }
        match b {
            Prin::FIRST => variable(0 < v.prins, b, c),
            Prin::SECOND => variable(1 < v.prins, b, c),
            _ => Err(Refusal::Range),
        }
    }

    // A pack, or the pack variable where it is declared.
    #[tactic(auto, unfolding(crate::specs::Bytes::pack))]
    pub fn pack(self, v: Scope) -> Result<(u8, Cursor<'a>), Refusal>
        ensures { result ≡ as_read self.entry (pack v) }
    {
        let (b, c) = self.byte()?;
        if b < Pack::COUNT {
            return Ok((b, c));
        }
        match b {
            Pack::VAR => variable(v.res == 2, b, c),
            _ => Err(Refusal::Range),
        }
    }

    // What follows an issue right's principal: 0 where a grant comes, 1 for the grant variable where it is declared.
    #[tactic(auto, unfolding(crate::specs::Bytes::tag))]
    pub fn tag(self, v: Scope) -> Result<(u8, Cursor<'a>), Refusal>
        ensures { result ≡ as_read self.entry (tag v) }
    {
        let (b, c) = self.byte()?;
        match b {
            0 => Ok((b, c)),
            1 => variable(v.res == 1, b, c),
            _ => Err(Refusal::Range),
        }
    }

    // The three bytes that open a grant.
    #[tactic(auto, unfolding(crate::specs::Bytes::header))]
    pub fn header(self) -> Result<(Header, Cursor<'a>), Refusal>
        ensures { result ≡ as_read self.entry header }
    {
        let (prins, c) = self.upto(2)?;
        let (res, c) = c.upto(2)?;
        let (count, c) = c.upto(Row::CONDITIONS as u8)?;
        let scope = Scope { prins, res };
        Ok((Header { scope, count }, c))
    }
}
