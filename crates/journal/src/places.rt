// Where the records of a journal start, and how long a journal may be.
ghost use Rattle.std.specs.Prelude.{◌≡◌, ◌≤◌, ltb};
ghost use Rattle.journal.specs.Places.{longest_journal, next_place};

// The most bytes that a journal has.
pub const MOST: usize = 65536;

// Whether a journal of n bytes has too many.
pub fn over(n: usize) -> bool
    ensures { result ≡ ltb longest_journal n }
{
    MOST < n
}

// Where the next record starts in a journal of len bytes: at the end, where the one at its place used no byte.
pub fn next_place(len: usize, at: usize, used: usize) -> usize
    requires { at ≤ len }
    ensures { result ≡ next_place len at used }
{
    if used == 0 {
        return len;
    }
    if len - at < used {
        return len;
    }
    at + used
}
