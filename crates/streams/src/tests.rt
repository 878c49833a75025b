// Lines handed over to what takes pieces. The bytes expected are those of the documents' lines; the letters, the sign and each digit are
// pieces, as document 02, 4 asks, and the words are as `lines/specs/Words` has them.
ghost use Rattle.std.specs.Prelude.{⊤};

use crate::output::{PieceOutput, put_line};
use frames::Kind;
use lines::{Line, Said};
use marks::{Change, Counts};
use sorts::Refusal;
use std::io;
use std::io::{Cursor, ErrorKind};
use std::test::Fail;

// Takes `room` pieces, and puts a bar behind each. It fails at every later one, and keeps a mark of each.
#[derive(Drop)]
struct Tape {
    bytes: [u8; 64],
    n: usize,
    room: usize,
}

impl Tape {
    fn new(room: usize) -> Tape {
        Tape {
            bytes: [0u8; 64],
            n: 0,
            room,
        }
    }

    fn push(&mut self, b: u8) {
        if self.n < self.bytes.len() {
            self.bytes[self.n] = b;
            self.n += 1;
        }
    }

    fn taken(&self) -> &[u8] {
        if self.n < self.bytes.len() {
            return &self.bytes[..self.n];
        }
        &self.bytes
    }
}

impl PieceOutput for Tape {
    ghost took = { λ a b ps. ⊤ };

    ghost took_none = { λ a. tt };

    ghost took_more = { λ a b c ps qs x y. tt };

    fn put(&mut self, piece: &[u8]) -> io::Result<()> {
        if self.room == 0 {
            self.push(b'#');
            return Err(io::Error::from(ErrorKind::WriteZero));
        }
        self.room -= 1;
        for b in piece {
            self.push(*b);
        }
        self.push(b'|');
        Ok(())
    }
}

fn change(gained: u32, lost: u32, net: i32) -> Change {
    Change { gained, lost, net }
}

#[test]
fn each_piece_is_handed_over(rt: HostRuntime) {
    let lost = Counts {
        truths: change(0, 1, -1),
        sayings: change(12, 0, 12),
    };
    for (line, pieces) in [
        (
            Line::Record(6, Said::Changed(Kind::Wd, lost)),
            b"6| |wd| |-|1| |+|1|2|\n|".as_slice(),
        ),
        (
            Line::Record(10, Said::Permitted(Kind::Qu)),
            b"1|0| |qu| permitted|\n|".as_slice(),
        ),
        (
            Line::Record(3, Said::Open(Kind::Qu)),
            b"3| |qu| open|\n|".as_slice(),
        ),
        (
            Line::Record(3, Said::NotPermitted(Kind::Qu)),
            b"3| |qu| not permitted|\n|".as_slice(),
        ),
        (
            Line::Record(7, Said::Refused(Refusal::Content)),
            b"7| |refused |1|0|\n|".as_slice(),
        ),
        (Line::End(13, 402), b"end |1|3| marks |4|0|2|\n|".as_slice()),
        (Line::Refused(Refusal::Length), b"refused |8|\n|".as_slice()),
    ] {
        let mut tape = Tape::new(64);
        assert!(rt; put_line(&mut tape, line).is_ok(), "at {pieces:?}");
        assert_eq!(rt; tape.taken(), pieces);
    }
}

#[test]
fn nothing_follows_a_failure(rt: HostRuntime) {
    let line = Line::Record(10, Said::Permitted(Kind::Qu));
    for (room, pieces) in [
        (0, b"#".as_slice()),
        (1, b"1|#".as_slice()),
        (3, b"1|0| |#".as_slice()),
        (5, b"1|0| |qu| permitted|#".as_slice()),
    ] {
        let mut tape = Tape::new(room);
        let told = put_line(&mut tape, line).err().map(|e| e.kind());
        assert_eq!(rt; told, Some(ErrorKind::WriteZero), "after {room} pieces");
        assert_eq!(rt; tape.taken(), pieces, "after {room} pieces");
    }
}

#[test]
fn bytes_take_a_piece(rt: HostRuntime) -> Result<(), Fail> {
    let mut out = Cursor::new([0u8; 3]);
    out.put(b"li")?;
    assert_eq!(rt; out.get_ref().as_slice(), b"li\0".as_slice());
    assert!(rt; out.put(b" +").is_err());
    assert_eq!(rt; out.get_ref().as_slice(), b"li ".as_slice());
    Ok(())
}

#[test]
fn bytes_take_a_line(rt: HostRuntime) -> Result<(), Fail> {
    let mut out = Cursor::new([0u8; 18]);
    put_line(&mut out, Line::End(13, 402))?;
    assert_eq!(rt;
        out.get_ref().as_slice(),
        b"end 13 marks 402\n\0".as_slice()
    );
    assert!(rt; put_line(&mut out, Line::End(13, 402)).is_err());
    assert_eq!(rt; out.get_ref().as_slice(), b"end 13 marks 402\ne".as_slice());
    Ok(())
}
