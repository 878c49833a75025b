// Rows as words, so that they are compared by numbers: of two parts of rows the one that comes first in the order of bytes has
// the smaller key, and below a word's key stands which inner grant the part has.
ghost use Rattle.std.specs.Prelude.{◌≡◌, ℕ, ◌+◌, ◌*◌, ◌<◌, get_or};
ghost use Rattle.rows.specs.Words.{keys, res_word, concl_word, cond_word, row_word};

use sorts::{Concl, Cond, GrantNo, Prin, Res, Row};

// The words of a row: its counts, its four conditions, and the conclusion granted.
pub const WORDS: usize = 6;

// What a word's key is counted in: below it stands the number of the inner grant, plus 1, or 0 for none.
pub const INNER: u64 = 256;

// The keys of conclusions are below this: three bytes, the first a kind.
const KEYS: u64 = 4 * 65536;

// Four bytes as one number, the first the highest.
fn pack(a: u8, b: u8, c: u8, d: u8) -> u64
    ensures { (result ≡ 256 * (65536 * a + (256 * b + c)) + d) × (result < 16777216 * a + 16777216) }
{
    u32::from_be_bytes([a, b, c, d]) as u64
}

// The word of a right of principal p.
fn res_word(p: Prin, x: Res) -> u64
    ensures { (result ≡ res_word p.0 x) × (result < 256 * keys) }
{
    match x {
        Res::Issue(g) => {
            if g.0 == GrantNo::VAR {
                return pack(1, p.0, 1, 0);
            }
            pack(1, p.0, 0, 0) + (g.0 as u64 + 1)
        }
        Res::Run(n) => pack(2, p.0, n.0, 0),
        Res::Export(n) => pack(3, p.0, n.0, 0),
    }
}

// The word of a conclusion.
fn concl_word(e: Concl) -> u64
    ensures { (result ≡ concl_word e) × (result < 256 * keys) }
{
    match e {
        Concl::Property(k, p) => pack(0, k, p.0, 0),
        Concl::Perm(p, x) => res_word(p, x),
    }
}

// The word of a condition.
pub fn cond_word(c: Cond) -> u64
    ensures { result ≡ cond_word c }
{
    INNER * KEYS * c.who.0 as u64 + concl_word(c.what)
}

// The words of a row.
pub fn row_words(x: Row) -> [u64; WORDS]
    ensures { (k : ℕ) → k < 6 → get_or result k 0 ≡ row_word x k }
{
    let c = x.conds;
    [
        pack(x.prins, x.res, x.count, 0),
        cond_word(c[0]),
        cond_word(c[1]),
        cond_word(c[2]),
        cond_word(c[3]),
        concl_word(x.head),
    ]
}
