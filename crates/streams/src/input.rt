// An input, read to its end or until its room is full. What fails is told.
ghost use Rattle.streams.specs.Inputs.{Again, HasRead};

use std::io;
use std::io::{ErrorKind, Read};

// How often a read that a signal interrupts is made again.
const TRIES: usize = 1000;

// A read that failed, and how many bytes were read before it.
#[derive(Drop)]
pub struct Failure {
    pub n: usize,
    pub error: io::Error,
}

// After a read that failed, where n bytes were read before it: how many more may be made again, if this one is, as one that a signal
// interrupted is while any may be; else the failure.
fn again(n: usize, tries: usize, error: io::Error) -> Result<usize, Failure>
    ensures { Again n tries error result }
{
    if 0 < tries && error.kind() == ErrorKind::Interrupted {
        return Ok(tries - 1);
    }
    Err(Failure { n, error })
}

// Reads until buf is full, the input ends or a read fails; one that a signal interrupts is made again. It answers how many bytes were
// read. A journal that is too long is seen by its first byte too many. A loop of its own: `read_to_end` takes memory, and says little after
// an `Err`.
pub fn read_all<R: Read>(reader: &mut R, buf: &mut [u8]) -> Result<usize, Failure>
    ensures { HasRead (R.remaining reader.old) (R.remaining reader.new) buf.new result }
{
    let mut n = 0;
    let mut tries = TRIES;
    while n < buf.len() {
        match reader.read(&mut buf[n..]) {
            Ok(0) => return Ok(n),
            Ok(more) => n += more,
            Err(error) => tries = again(n, tries, error)?,
        }
    }
    Ok(n)
}
