// The flags of a book: as they change, and with every provisional licence taken as firm.
pub mod changes;

ghost use Rattle.std.specs.Prelude.{◌≡◌, ◌<◌};
ghost use Rattle.sorts.specs.Decides.{Decides};
ghost use Rattle.sorts.specs.Numbers.{grants};
ghost use Rattle.sorts.specs.Flags.{all_flags};
ghost use Rattle.bookform.specs.Both.{both_at, both_flags, FirmOnly};
ghost use Rattle.bookform.specs.Inner.Rows.{FirmAt};

use sorts::{GrantNo, Prin, Status};

// The flag at place i: of a principal's licence the larger of its two flags, firm and provisional, else the flag itself.
fn both_at(flags: &[u8; Status::ALL], i: usize) -> u8
    requires { i < all_flags }
    ensures { result ≡ both_at flags.now i }
{
    let j = i % Status::FLAGS;
    if j == 0 {
        return flags[i];
    }
    if Status::FIRM <= j {
        return flags[i];
    }
    flags[i].max(flags[i + Prin::SPEAKERS as usize])
}

// All flags so.
pub fn with_provisional(flags: [u8; Status::ALL]) -> [u8; Status::ALL]
    ensures { result ≡ both_flags flags }
{
    let mut both = flags;
    for i in 0..Status::ALL {
        both[i] = both_at(&flags, i);
    }
    both
}

// Whether no licence with the grant is provisional.
fn firm_at(flags: &[u8; Status::ALL], no: GrantNo) -> bool
    requires { no.0 < grants }
    ensures { Decides result (FirmAt flags.now no.0) }
{
    (0..Prin::SPEAKERS).all(|p| flags[Status::Provisional(Prin(p)).flag_place(no)] == 0)
}

// Whether no licence is provisional.
pub fn firm_only(flags: &[u8; Status::ALL]) -> bool
    ensures { Decides result (FirmOnly flags.now) }
{
    (0..GrantNo::COUNT).all(|g| firm_at(flags, GrantNo(g)))
}
