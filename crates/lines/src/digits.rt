// Numbers in decimal, digit by digit.
ghost use Rattle.std.specs.Prelude.{◌≡◌, ◌∷◌, ◌<◌, ◌≤◌, nat_abs, length, get_or};
ghost use Rattle.lines.specs.Decimals.{decimal, signed};

// How many digits n has.
pub fn count(n: usize) -> usize
    ensures { (result ≡ length (decimal n)) × (result ≤ 20) }
{
    n.checked_ilog10().unwrap_or(0) as usize + 1
}

// Digit i of n, counted from the first, in ASCII; n has d digits.
pub fn digit(n: usize, d: usize, i: usize) -> u8
    requires { (d ≡ length (decimal n)) × (i < d) }
    ensures { result ≡ get_or (decimal n) i 0 }
{
    let after = (d - 1 - i) as u32;
    48 + (n / 10usize.pow(after) % 10) as u8
}

// The sign of z.
pub fn sign(z: i32) -> u8
    ensures { signed z ≡ result ∷ decimal (nat_abs z) }
{
    if z < 0 {
        return b'-';
    }
    b'+'
}

// The number behind the sign of z.
pub fn size(z: i32) -> usize
    ensures { result ≡ nat_abs z }
{
    z.unsigned_abs() as usize
}
