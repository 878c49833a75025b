// Whether the grants of a table, written out, are in canonical form: in each row the conditions ascend. Rows
// are compared by their words.
#![tactic(auto)]

ghost use Rattle.std.specs.Prelude.{true, ◌≡◌, get_or};
ghost use Prim.Native.Nat.{ℕ, ◌+◌, ◌≤◌, ◌<◌, Ordering};
ghost use Rattle.sorts.specs.Numbers.{conditions};
ghost use Rattle.sorts.specs.Blank.{no_row};
ghost use Rattle.sorts.specs.Decides.{Decides};
ghost use Rattle.rows.specs.Form.{TableForm};
ghost use Rattle.canon.specs.CanonicalRows.{CanonicalRows};
ghost use Rattle.ascending.specs.Inner.Words.{Laid, First, Inside, Told, NextAbove, KeyBelow, KeysAscend};

use rows::Table;
use rows::rowwords::{INNER, WORDS, cond_word, row_words};
use sorts::{Cond, Row};

// The first word in which one row differs from another; the last where no other does.
fn first_apart(v: &[u64; WORDS], w: &[u64; WORDS]) -> usize
    ensures { First v.now w.now result }
{
    (0..WORDS - 1).find(|&k| v[k] != w[k]).unwrap_or(WORDS - 1)
}

// Whether two inner grants decide how two words stand: the keys are the same, and the inner grants are not.
fn inside(a: u64, b: u64) -> bool
    ensures { Inside result a b }
{
    a / INNER == b / INNER && a % INNER != b % INNER && a % INNER != 0 && b % INNER != 0
}

// Whether condition j of row i is below the next: the keys decide, and where two inner grants do, the first words in which
// those differ.
fn below(words: &[[u64; WORDS]; Table::ROWS], i: usize, j: usize) -> bool
    requires { (j < 3) × Laid words.now (i + 1) }
    ensures { (f : ℕ → ℕ → Ordering) → Told f words.now (i + 1) → Decides result (NextAbove f words.now i j) }
{
    let mut a = words[i][j + 1];
    let mut b = words[i][j + 2];
    while inside(a, b) {
        let v = &words[(a % INNER) as usize - 1];
        let w = &words[(b % INNER) as usize - 1];
        let k = first_apart(v, w);
        a = v[k];
        b = w[k];
    }
    a / INNER < b / INNER
}

// Whether the n conditions of row i ascend.
fn row_ascends(words: &[[u64; WORDS]; Table::ROWS], i: usize, n: usize) -> bool
    requires { (n ≤ conditions) × Laid words.now (i + 1) }
    ensures { (f : ℕ → ℕ → Ordering) → Told f words.now (i + 1) → Decides result ((j : ℕ) → j + 1 < n → NextAbove f words.now i j) }
{
    (1..n).all(|j| below(words, i, j - 1))
}

// Whether the key of a condition is below that of another. No derived order does it: an inner grant counts as it is written out, and not
// by its number.
fn key_below(a: Cond, b: Cond) -> bool
    ensures { result ≡ true → KeyBelow a b }
{
    a.who.0 < b.who.0 || cond_word(a) / INNER < cond_word(b) / INNER
}

// Whether the keys of a row's conditions ascend.
fn keys_ascend(x: Row) -> bool
    requires { x.count ≤ conditions }
    ensures { result ≡ true → KeysAscend x }
{
    (1..x.count as usize).all(|j| key_below(x.conds[j - 1], x.conds[j]))
}

// Whether the keys of the conditions ascend in each row, so that no inner grant has to be looked into.
fn all_keys_ascend(t: Table) -> bool
    requires { TableForm t }
    ensures { result ≡ true → (i : ℕ) → i < t.count → KeysAscend (get_or t.rows i no_row) }
{
    (0..t.count).all(|i| keys_ascend(t.rows[i]))
}

// Whether the grants of a table in form, written out, are in canonical form: in each row the conditions ascend.
pub fn conditions_ascend(t: Table) -> bool
    requires { TableForm t }
    ensures { Decides result (CanonicalRows t) }
{
    if all_keys_ascend(t) {
        return true;
    }
    // The words of each row, by its number, for the rows after it.
    let mut words = [[0u64; WORDS]; Table::ROWS];
    for i in 0..t.count {
        let x = t.rows[i];
        words[i] = row_words(x);
        if !row_ascends(&words, i, x.count as usize) {
            return false;
        }
    }
    true
}
