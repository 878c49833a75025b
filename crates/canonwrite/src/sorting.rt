// Segments of bytes that stand one after the other in a buffer: compared, and turned.
ghost use Rattle.std.specs.Prelude.{◌∷◌, ◌++◌, ◌≡◌, ◌+◌, ◌≤◌, ◌<◌, length, get_or, set, sum, take, drop};
ghost use Rattle.sorts.specs.Numbers.{conditions};
ghost use Rattle.canonwrite.specs.Segments.{part, turn, seat};

use sorts::Row;
use std::cmp::Ordering;

// The byte at a place; past the end 0.
pub fn byte_at(s: &[u8], at: usize) -> u8
    ensures { result ≡ get_or s.now at 0 }
{
    s.get(at).copied().unwrap_or(0)
}

// A byte put at a place; past the end nothing is put. By the place, since a proof knows no element of what `get_mut` lends.
pub fn put(out: &mut [u8], to: usize, b: u8)
    ensures { out.new ≡ set out.old to b }
{
    if to < out.len() {
        out[to] = b;
    }
}

// What stands from b up to e put before what stands from a up to b, in one buffer: so the parts are told by places.
pub fn turn(out: &mut [u8], a: usize, b: usize, e: usize)
    requires { (a ≤ b) × (b ≤ e) × (e ≤ length out.old) }
    ensures { out.new ≡ turn out.old a b e }
{
    out[a..e].rotate_left(b - a);
}

// Where the segment from `to` up to e stands among segments of such lengths, of which the first is at b: nowhere, since it is
// there, or before the one of a number, at that one's place. Places in one buffer, since the segment is turned in it.
pub fn seek(out: &[u8], b: usize, lens: &[usize], to: usize, e: usize) -> Option<(usize, usize)>
    requires { (b + sum lens.now ≤ to) × (to ≤ e) × (e ≤ length out.now) }
    ensures { result ≡ seat (part to e out.now) out.now 0 b lens.now }
{
    let mut at = b;
    for (k, &n) in lens.iter().enumerate() {
        match out[to..e].cmp(&out[at..at + n]) {
            Ordering::Less => return Some((k, at)),
            Ordering::Equal => return None,
            Ordering::Greater => at += n,
        }
    }
    Some((lens.len(), at))
}

// A length put among lengths at place k; the last one falls off.
pub fn insert(lens: [usize; Row::CONDITIONS], k: usize, n: usize) -> [usize; Row::CONDITIONS]
    requires { k < conditions }
    ensures { result ≡ take conditions (take k lens ++ (n ∷ drop k lens)) }
{
    let mut r = lens;
    r[k..].rotate_right(1);
    r[k] = n;
    r
}
