// The flags of a book after a grant is entered with a status, or what stands so is removed.
ghost use Rattle.std.specs.Prelude.{◌≡◌, ◌≤◌, ◌<◌};
ghost use Rattle.sorts.specs.Decides.{Decides};
ghost use Rattle.sorts.specs.Numbers.{speakers, grants};
ghost use Rattle.bookform.specs.Changes.{is_set, put, entered_flags, there_flags, removed_flags, Unflagged, FlagsApart};
ghost use Rattle.bookform.specs.Inner.Rows.{Clash, ApartAt};

use sorts::{GrantNo, Prin, Status};

// A status and a grant's number are two parameters, as in the definitions.

// Whether the grant stands so: what has no flag does not.
pub fn is_set(flags: [u8; Status::ALL], by: Status, g: GrantNo) -> bool
    ensures { result ≡ is_set flags by g.0 }
{
    flags.get(by.flag_place(g)) == Some(&1)
}

// The flags with that of the grant, where it has one, set to v.
fn put(flags: [u8; Status::ALL], by: Status, g: GrantNo, v: u8) -> [u8; Status::ALL]
    ensures { result ≡ put flags by g.0 v }
{
    let mut f = flags;
    let i = by.flag_place(g);
    if i < Status::ALL {
        f[i] = v;
    }
    f
}

// The flags with the grant entered.
pub fn entered(flags: [u8; Status::ALL], by: Status, g: GrantNo) -> [u8; Status::ALL]
    ensures { result ≡ entered_flags by g.0 flags }
{
    match by {
        Status::Trusted => put(flags, Status::Trusted, g, 1),
        Status::Issued(p) => {
            let f = put(flags, Status::Provisional(p), g, 0);
            put(f, Status::Issued(p), g, 1)
        }
        Status::Provisional(p) => {
            let firm = Status::Issued(p);
            if is_set(flags, firm, g) {
                return flags;
            }
            put(flags, Status::Provisional(p), g, 1)
        }
    }
}

// Whether there is something to remove.
pub fn there(flags: [u8; Status::ALL], by: Status, g: GrantNo) -> bool
    ensures { result ≡ there_flags by g.0 flags }
{
    match by {
        Status::Trusted => is_set(flags, Status::Trusted, g),
        Status::Issued(p) => {
            is_set(flags, Status::Issued(p), g) || is_set(flags, Status::Provisional(p), g)
        }
        Status::Provisional(p) => is_set(flags, Status::Provisional(p), g),
    }
}

// The flags with it removed.
pub fn removed(flags: [u8; Status::ALL], by: Status, g: GrantNo) -> [u8; Status::ALL]
    ensures { result ≡ removed_flags by g.0 flags }
{
    match by {
        Status::Trusted => put(flags, Status::Trusted, g, 0),
        Status::Issued(p) => {
            let f = put(flags, Status::Provisional(p), g, 0);
            put(f, Status::Issued(p), g, 0)
        }
        Status::Provisional(p) => put(flags, Status::Provisional(p), g, 0),
    }
}

// Whether p's licence with the grant is both firm and provisional.
fn clashes(flags: &[u8; Status::ALL], p: Prin, no: GrantNo) -> bool
    requires { (p.0 < speakers) × (no.0 < grants) }
    ensures { Decides result (Clash flags.now p no.0) }
{
    let i = Status::Issued(p).flag_place(no);
    if flags[i] != 1 {
        return false;
    }
    let j = Status::Provisional(p).flag_place(no);
    flags[j] == 1
}

// Whether no licence with the grant is both.
fn apart_at(flags: &[u8; Status::ALL], no: GrantNo) -> bool
    requires { no.0 < grants }
    ensures { Decides result (ApartAt flags.now no.0) }
{
    (0..Prin::SPEAKERS).all(|p| !clashes(flags, Prin(p), no))
}

// Whether no licence is both firm and provisional, where rows from the count on have no flags.
pub fn apart(flags: &[u8; Status::ALL], count: usize) -> bool
    requires { (count ≤ grants) × Unflagged flags.now count }
    ensures { Decides result (FlagsApart flags.now) }
{
    (0..count as u8).all(|g| apart_at(flags, GrantNo(g)))
}
