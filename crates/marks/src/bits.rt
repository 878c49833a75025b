// Bytes that are 0 or 1.
ghost use Rattle.std.specs.Prelude.{◌≡◌, ℕ, ◌≤◌, get_or};
ghost use Rattle.sorts.specs.Decides.{Decides};
ghost use Rattle.marks.specs.Inner.Most.{Most};

// The largest byte, 0 where there is none.
fn most(s: &[u8]) -> u8
    ensures { Most s.now result }
{
    // No early exit, so that many bytes are compared at once: `all` took fifteen times as many instructions.
    let mut m: u8 = 0;
    for b in s {
        m = m.max(*b);
    }
    m
}

// Whether every byte is 0 or 1.
pub fn bits(s: &[u8]) -> bool
    ensures { Decides result ((i : ℕ) → get_or s.now i 0 ≤ 1) }
{
    most(s) <= 1
}

// Whether every byte from a place on is 0.
pub fn zero_from(s: &[u8], from: usize) -> bool
    ensures { Decides result ((i : ℕ) → from ≤ i → get_or s.now i 0 ≡ 0) }
{
    most(&s[from.min(s.len())..]) == 0
}
