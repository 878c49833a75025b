// Whether the rows of a grant table are distinct, by a key for each.
ghost use Rattle.std.specs.Prelude.{true, ◌≡◌, ℕ, ◌≤◌, ◌<◌, length, get_or};
ghost use Rattle.sorts.specs.Numbers.{grants};
ghost use Rattle.sorts.specs.Blank.{no_row};
ghost use Rattle.sorts.specs.Decides.{Decides};
ghost use Rattle.form.specs.Inner.Keys.{row_key};

use rows::Table;
use rows::rowwords::row_words;
use sorts::Row;

// What the keys of rows are written in.
const BASE: u64 = 509;

// Whether row i is none of the rows before it.
fn new_row(t: Table, i: usize) -> bool
    requires { i < grants }
    ensures { Decides result ((j : ℕ) → j < i → get_or t.rows j no_row ≡ get_or t.rows i no_row → ⊥) }
{
    let x = t.rows[i];
    !t.rows[..i].contains(&x)
}

// A number made of a row: of its words, each a digit.
fn row_key(x: Row) -> u64
    ensures { result ≡ row_key x }
{
    let mut k: u64 = 0;
    for w in row_words(x) {
        k = k.wrapping_mul(BASE).wrapping_add(w);
    }
    k
}

// 1 where two keys are the same.
fn same_key(a: u64, b: u64) -> u64
    ensures { (result ≡ 0 → a ≡ b → ⊥) × (result ≤ 1) }
{
    (a == b) as u64
}

// Whether k is none of the keys.
fn new_key(keys: &[u64], k: u64) -> bool
    ensures { result ≡ true → (j : ℕ) → j < length keys.now → get_or keys.now j 0 ≡ k → ⊥ }
{
    // No early exit, so that several keys are compared at once: `contains` took twice as many instructions.
    let mut same: u64 = 0;
    for x in keys {
        same += same_key(*x, k);
    }
    same == 0
}

// Whether row i, which has key k, is none of the rows before it, which have the keys before.
fn differs(t: Table, keys: &[u64], i: usize, k: u64) -> bool
    requires { (i < grants) × (length keys.now ≡ i) × ((j : ℕ) → j < i → get_or keys.now j 0 ≡ row_key (get_or t.rows j no_row)) × (k ≡ row_key (get_or t.rows i no_row)) }
    ensures { Decides result ((j : ℕ) → j < i → get_or t.rows j no_row ≡ get_or t.rows i no_row → ⊥) }
{
    new_key(keys, k) || new_row(t, i)
}

// Whether the rows below the count are distinct.
pub fn distinct_rows(t: Table) -> bool
    requires { t.count ≤ grants }
    ensures { Decides result ((i j : ℕ) → i < t.count → j < t.count → get_or t.rows i no_row ≡ get_or t.rows j no_row → i ≡ j) }
{
    // The key of each row, by its number, for the rows after it.
    let mut keys = [0u64; Table::ROWS];
    for i in 0..t.count {
        let k = row_key(t.rows[i]);
        if !differs(t, &keys[..i], i, k) {
            return false;
        }
        keys[i] = k;
    }
    true
}
