// The frame of a record: two mark bytes, two bytes with the length of its content, and the content.
#![tactic(auto)]

pub mod ranges;

ghost use Rattle.std.specs.Prelude.{◌≡◌, ◌≤◌, drop};
ghost use Rattle.frames.specs.Frames.{letters_of, read_mark, stated, sized, frame};
ghost use Rattle.frames.specs.Bytes.{as_result};
ghost use Rattle.frames.specs.Inner.Told.{longest, Names, Framed};

use sorts::Refusal;

// The bytes before a content: those of the mark and of the length.
pub const HEADER: usize = 4;

// The kinds of record.
#[derive(Clone, Copy, PartialEq, Eq)]
pub enum Kind {
    Tg,
    St,
    Li,
    Wd,
    Qu,
    Pl,
    Cf,
    Pv,
}

impl Kind {
    // All kinds.
    const ALL: [Kind; 8] = [
        Kind::Tg,
        Kind::St,
        Kind::Li,
        Kind::Wd,
        Kind::Qu,
        Kind::Pl,
        Kind::Cf,
        Kind::Pv,
    ];

    // The mark of a kind: the two lower-case letters with which a record opens.
    pub fn letters(self) -> [u8; 2]
        ensures { result ≡ letters_of self }
    {
        match self {
            Kind::Tg => *b"tg",
            Kind::St => *b"st",
            Kind::Li => *b"li",
            Kind::Wd => *b"wd",
            Kind::Qu => *b"qu",
            Kind::Pl => *b"pl",
            Kind::Cf => *b"cf",
            Kind::Pv => *b"pv",
        }
    }
}

// The kind that two letters say.
impl TryFrom<[u8; 2]> for Kind {
    type Error = Refusal;

    ghost try_from_gives = { Names };

    fn try_from(letters: [u8; 2]) -> Result<Kind, Refusal> {
        Kind::ALL
            .into_iter()
            .find(|k| k.letters() == letters)
            .ok_or(Refusal::Mark)
    }
}

// The kind of the record that s starts with, and the place after its mark.
pub fn read_mark(s: &[u8]) -> Result<(Kind, usize), Refusal>
    ensures { result ≡ as_result (read_mark s.now) }
{
    if s.len() < 2 {
        return Err(Refusal::Missing);
    }
    let k = Kind::try_from([s[0], s[1]])?;
    Ok((k, 2))
}

// The number that two bytes state, the high one first.
fn stated(high: u8, low: u8) -> usize
    ensures { (result ≡ stated high low) × (result ≤ longest) }
{
    u16::from_be_bytes([high, low]) as usize
}

// The content of the record of kind k that s starts with, which must be there.
fn read_content(k: Kind, s: &[u8]) -> Result<(Kind, &[u8]), Refusal>
    ensures { Framed (sized k (drop 2 s.now)) result }
{
    if s.len() < HEADER {
        return Err(Refusal::Missing);
    }
    let len = stated(s[2], s[3]);
    if s.len() - HEADER < len {
        return Err(Refusal::Missing);
    }
    Ok((k, &s[HEADER..HEADER + len]))
}

// The kind of the record that s starts with, and its content.
pub fn read_frame(s: &[u8]) -> Result<(Kind, &[u8]), Refusal>
    ensures { Framed (frame s.now) result }
{
    let (k, _) = read_mark(s)?;
    read_content(k, s)
}
