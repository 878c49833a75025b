// The form of a grant written into a buffer, from left to right: the conditions met so far stand in the buffer as segments that
// ascend, and a new one, written behind them, is left out or turned into its place.
#![tactic(auto)]

pub mod sorting;

ghost use Rattle.std.specs.Prelude.{◌≡◌, ◌+◌, ◌≤◌, ◌<◌, length, take};
ghost use Rattle.sorts.specs.Numbers.{conditions, depths};
ghost use Rattle.canonwrite.specs.Buffer.{copy_three, put_in, put_concl, put_conds, put_grant};
ghost use Rattle.canon.specs.Most.{most, most_grant, most_concl};
ghost use Rattle.canonwrite.specs.Inner.Writing.{spot_of, kept_of, SegmentsFit, room};
ghost use Rattle.canonwrite.specs.Answers.{Answers};

use sorts::Row;

// The most bytes of a grant, and of a query's conclusion.
pub const MOST_GRANT: usize = 3432;

pub const MOST_CONCL: usize = 3 + MOST_GRANT;

// The place after the bytes read, and the place after those written.
#[derive(Clone, Copy)]
pub struct Place {
    pub at: usize,
    pub to: usize,
}

// The same with the lengths of the segments, of which the first `count` are meant: a list of a fixed length, since no memory is
// taken. The two places stand here as they are: the contracts and each step name them, and an inner `Place` would stand before each.
#[derive(Clone, Copy)]
pub struct Segments {
    pub at: usize,
    pub to: usize,
    pub count: usize,
    pub lens: [usize; Row::CONDITIONS],
}

// Three bytes copied, one by one: a byte past the end of s is 0.
fn copy_three(s: &[u8], p: Place, out: &mut [u8])
    requires { (p.at + 3 ≤ 65536) × (p.to + 3 ≤ length out.old) }
    ensures { out.new ≡ copy_three s.now p.at out.old p.to }
{
    sorting::put(out, p.to, sorting::byte_at(s, p.at));
    sorting::put(out, p.to + 1, sorting::byte_at(s, p.at + 1));
    sorting::put(out, p.to + 2, sorting::byte_at(s, p.at + 2));
}

// The segment written behind those from b on is left out, or turned into its place.
fn put_in(b: usize, was: Segments, one: Place, out: &mut [u8]) -> Segments
    requires { (was.count < conditions) × SegmentsFit b was × (was.to ≤ one.to) × (one.to ≤ length out.old) }
    ensures done { kept_of out.new result ≡ put_in b was.to (take was.count was.lens) (spot_of out.old one) }
    ensures fits { SegmentsFit b result × (result.count ≤ was.count + 1) × (was.to ≤ result.to) × (result.to ≤ one.to) × (result.at ≡ one.at) }
{
    match sorting::seek(out, b, &was.lens[..was.count], was.to, one.to) {
        None => Segments { at: one.at, ..was },
        Some((k, p)) => {
            sorting::turn(out, p, was.to, one.to);
            Segments {
                at: one.at,
                to: one.to,
                count: was.count + 1,
                lens: sorting::insert(was.lens, k, one.to - was.to),
            }
        }
    }
}

// The form of the conclusion at a place. Its bytes are copied, whatever they are: no kind is read here.
#[cycle(put_concl_put_conds_put_grant)]
fn put_concl(s: &[u8], p: Place, below: u8, out: &mut [u8]) -> Place
    requires { (p.at + 3 + most below ≤ 65536) × (p.to + 3 + most below ≤ length out.old) }
    ensures done { spot_of out.new result ≡ put_concl (put_grant below s.now) s.now p.at out.old p.to }
    ensures fits { (p.to ≤ result.to) × (result.to ≤ p.to + 3 + most below) × (result.at ≤ p.at + 3 + most below) }
{
    copy_three(s, p, out);
    let kind = sorting::byte_at(s, p.at);
    let form = sorting::byte_at(s, p.at + 2);
    let next = Place {
        at: p.at + 3,
        to: p.to + 3,
    };
    if kind == 1 && form == 0 {
        return put_grant(s, next, below, out);
    }
    next
}

// `k` more conditions, put among the segments from b on.
#[cycle(put_concl_put_conds_put_grant)]
#[tactic(auto, using(crate::proofs::Steps::room_none, crate::proofs::Steps::room_step))]
fn put_conds(s: &[u8], below: u8, b: usize, k: u8, was: Segments, out: &mut [u8]) -> Segments
    requires { (was.count + k ≤ conditions) × SegmentsFit b was × (was.at + room k (most below) ≤ 65536) × (was.to + room k (most below) ≤ length out.old) }
    ensures done { kept_of out.new result ≡ put_conds (put_grant below s.now) s.now b k (kept_of out.old was) }
    ensures fits { SegmentsFit b result × (was.to ≤ result.to) × (result.to + 3 + most below ≤ was.to + room k (most below)) × (result.at + 3 + most below ≤ was.at + room k (most below)) }
{
    let mut kept = was;
    for i in 0..k {
        sorting::put(out, kept.to, sorting::byte_at(s, kept.at));
        let next = Place {
            at: kept.at + 1,
            to: kept.to + 1,
        };
        let one = put_concl(s, next, below, out);
        kept = put_in(b, kept, one, out);
    }
    kept
}

// The form of the grant at a place; `left` grants may stand one inside the other, this one counted.
#[cycle(put_concl_put_conds_put_grant)]
#[tactic(auto, using(crate::proofs::Steps::most_step, crate::proofs::Steps::room_most))]
fn put_grant(s: &[u8], p: Place, left: u8, out: &mut [u8]) -> Place
    requires { (p.at + most left ≤ 65536) × (p.to + most left ≤ length out.old) }
    ensures done { spot_of out.new result ≡ put_grant left s.now p.at out.old p.to }
    ensures fits { (p.to ≤ result.to) × (result.to ≤ p.to + most left) × (result.at ≤ p.at + most left) }
{
    if left == 0 {
        return p;
    }
    let below = left - 1;
    copy_three(s, p, out);
    let k = sorting::byte_at(s, p.at + 2).min(Row::CONDITIONS as u8);
    let none = Segments {
        at: p.at + 3,
        to: p.to + 3,
        count: 0,
        lens: [0; Row::CONDITIONS],
    };
    let cs = put_conds(s, below, p.to + 3, k, none, out);
    sorting::put(out, p.to + 2, cs.count as u8);
    let head = Place {
        at: cs.at,
        to: cs.to,
    };
    put_concl(s, head, below, out)
}

// The form of the grant that the bytes open with, written into a buffer that has room for the longest one; none where it has not. A
// buffer of any length is lent: an array would ask more of who lends it.
pub fn write_grant(s: &[u8], out: &mut [u8]) -> Option<Place>
    ensures { Answers most_grant (put_grant depths s.now 0 out.old 0) out.old out.new result }
{
    if out.len() < MOST_GRANT {
        return None;
    }
    Some(put_grant(s, Place { at: 0, to: 0 }, Row::DEPTHS, out))
}

// The same of the conclusion that the bytes open with.
// Two functions of three lines: one for both would take the step as a closure.
pub fn write_concl(s: &[u8], out: &mut [u8]) -> Option<Place>
    ensures { Answers most_concl (put_concl (put_grant depths s.now) s.now 0 out.old 0) out.old out.new result }
{
    if out.len() < MOST_CONCL {
        return None;
    }
    Some(put_concl(s, Place { at: 0, to: 0 }, Row::DEPTHS, out))
}
