// The form that a grant table must have, and the test of it.
#![tactic(auto)]

mod depths;
mod distinct;

ghost use Rattle.std.specs.Prelude.{◌≡◌, ℕ, ◌≤◌, ◌<◌, get_or};
ghost use Rattle.sorts.specs.declared.Res.TheVariants.{Issue};
ghost use Rattle.sorts.specs.Numbers.{grants, conditions};
ghost use Rattle.sorts.specs.Blank.{blank_cond, blank_row, no_row};
ghost use Rattle.sorts.specs.Decides.{Decides};
ghost use Rattle.rows.specs.Form.{TableForm};
ghost use Rattle.sorts.specs.RowForm.{PrinForm, PackForm, ResForm, ConclForm, CondForm, RowForm};

use rows::Table;
use sorts::{Concl, Cond, GrantNo, Number, Pack, Prin, Res, Row};

// How many properties there are.
const PROPERTIES: u8 = Number::PROPERTIES as u8;

// Each of the next is told what it needs of its row one by one, as the definitions name it.

// Whether a principal in a row is one of the principals, or a variable that the row declares.
fn prin_ok(prins: u8, p: Prin) -> bool
    ensures { Decides result (PrinForm prins p) }
{
    match p.0 {
        Prin::FIRST => 0 < prins,
        Prin::SECOND => 1 < prins,
        n => n < Prin::COUNT,
    }
}

// Whether a pack in a row is one of the packs, or the pack variable where the row declares it.
fn pack_ok(res: u8, p: Pack) -> bool
    ensures { Decides result (PackForm res p) }
{
    match p.0 {
        Pack::VAR => res == 2,
        n => n < Pack::COUNT,
    }
}

// Whether a grant number in row i is lower than i, or the grant variable where the row declares it.
fn grant_ok(i: usize, res: u8, g: GrantNo) -> bool
    ensures { Decides result (ResForm i res (Issue g)) }
{
    (g.0 as usize) < i || g.0 == GrantNo::VAR && res == 1
}

// Whether a resource in row i is in form.
fn res_ok(i: usize, res: u8, x: Res) -> bool
    ensures { Decides result (ResForm i res x) }
{
    match x {
        Res::Issue(g) => grant_ok(i, res, g),
        Res::Run(p) => pack_ok(res, p),
        Res::Export(p) => pack_ok(res, p),
    }
}

// Whether a conclusion in row i is in form.
fn concl_ok(i: usize, prins: u8, res: u8, e: Concl) -> bool
    ensures { Decides result (ConclForm i prins res e) }
{
    match e {
        Concl::Property(k, p) => k < PROPERTIES && prin_ok(prins, p),
        Concl::Perm(p, x) => prin_ok(prins, p) && res_ok(i, res, x),
    }
}

// Whether a condition in row i is in form.
fn cond_ok(i: usize, prins: u8, res: u8, c: Cond) -> bool
    ensures { Decides result (CondForm i prins res c) }
{
    prin_ok(prins, c.who) && concl_ok(i, prins, res, c.what)
}

// Whether the conditions that row i uses are in form.
fn used_conds_ok(i: usize, x: Row) -> bool
    requires { x.count ≤ conditions }
    ensures { Decides result ((j : ℕ) → j < x.count → CondForm i x.prins x.res (get_or x.conds j blank_cond)) }
{
    x.conds[..x.count as usize]
        .iter()
        .all(|c| cond_ok(i, x.prins, x.res, *c))
}

// Whether the conditions that a row does not use are blank.
fn unused_conds_ok(x: Row) -> bool
    ensures { Decides result ((j : ℕ) → x.count ≤ j → get_or x.conds j blank_cond ≡ blank_cond) }
{
    let used = x.count as usize;
    x.conds.iter().skip(used).all(|c| *c == Cond::blank())
}

// Whether row i is in form by itself.
fn row_ok(i: usize, x: Row) -> bool
    ensures { Decides result (RowForm i x) }
{
    x.prins <= 2
        && x.res <= 2
        && x.count <= Row::CONDITIONS as u8
        && concl_ok(i, x.prins, x.res, x.head)
        && used_conds_ok(i, x)
        && unused_conds_ok(x)
}

// Whether the rows below the count are in form, each by itself.
fn used_rows_ok(t: Table) -> bool
    requires { t.count ≤ grants }
    ensures { Decides result ((i : ℕ) → i < t.count → RowForm i (get_or t.rows i no_row)) }
{
    (0..t.count).all(|i| row_ok(i, t.rows[i]))
}

// Whether a row is blank. Part by part: by the derived equality of rows a record on a book of 64 rows took 6 % longer.
fn blank_row(x: Row) -> bool
    ensures { Decides result (x ≡ blank_row) }
{
    x.prins == 0 && x.res == 0 && x.count == 0 && x.head == Concl::blank() && unused_conds_ok(x)
}

// Whether the rows from the count on are blank.
fn unused_rows_ok(t: Table) -> bool
    ensures { Decides result ((i : ℕ) → t.count ≤ i → i < grants → get_or t.rows i no_row ≡ blank_row) }
{
    t.rows.iter().skip(t.count).all(|x| blank_row(*x))
}

// Whether a table is in form.
pub fn table_in_form(t: Table) -> bool
    ensures { Decides result (TableForm t) }
{
    t.count <= Table::ROWS
        && unused_rows_ok(t)
        && used_rows_ok(t)
        && distinct::distinct_rows(t)
        && depths::depths_ok(t)
}
