// The depths of the rows of a grant table, worked out row by row.
ghost use Rattle.std.specs.Prelude.{◌≡◌, ℕ, ◌≤◌, ◌<◌, get_or};
ghost use Rattle.sorts.specs.Numbers.{grants, conditions, depths};
ghost use Rattle.sorts.specs.Blank.{no_row};
ghost use Rattle.sorts.specs.Decides.{Decides};
ghost use Rattle.rows.specs.Form.{depth, rows_out, no_grant};
ghost use Rattle.sorts.specs.RowForm.{RowForm};
ghost use Rattle.form.specs.Inner.Depths.{depth_of_res, depth_of_concl, depth_of_conds, held_depth};

use rows::Table;
use sorts::{Concl, Cond, Res, Row};

// The depth of the grant that a resource is, 0 where it is none; each grant's depth stands at its number. The test says which numbers have a
// row.
fn res_depth(depths: [u8; Table::ROWS], x: Res) -> u8
    ensures { result ≡ depth_of_res depths x }
{
    match x {
        Res::Issue(g) => {
            let n = g.0 as usize;
            if n < Table::ROWS { depths[n] } else { 0 }
        }
        Res::Run(_) => 0,
        Res::Export(_) => 0,
    }
}

// The depth of the grant that a conclusion holds, 0 where it holds none.
fn concl_depth(depths: [u8; Table::ROWS], e: Concl) -> u8
    ensures { result ≡ depth_of_concl depths e }
{
    match e {
        Concl::Property(_, _) => 0,
        Concl::Perm(_, x) => res_depth(depths, x),
    }
}

// The depth of the grant that a condition holds, 0 where it holds none.
fn cond_depth(depths: [u8; Table::ROWS], c: Cond) -> u8
    ensures { result ≡ depth_of_concl depths c.what }
{
    concl_depth(depths, c.what)
}

// The depth of the deepest grant that a row's four places for conditions hold, 0 where they hold none.
fn conds_depth(depths: [u8; Table::ROWS], x: Row) -> u8
    ensures { result ≡ depth_of_conds depths x.conds 0 conditions }
{
    x.conds.iter().fold(0, |d, c| d.max(cond_depth(depths, *c)))
}

// The depth of the deepest grant that a row holds, 0 where it holds none.
fn held_depth(depths: [u8; Table::ROWS], x: Row) -> u8
    ensures { result ≡ held_depth depths x }
{
    conds_depth(depths, x).max(concl_depth(depths, x.head))
}

// Whether the rows below the count, each in form by itself, have depth at most 4.
pub fn depths_ok(t: Table) -> bool
    requires { (t.count ≤ grants) × ((i : ℕ) → i < t.count → RowForm i (get_or t.rows i no_row)) }
    ensures { Decides result ((i : ℕ) → i < t.count → depth (get_or (rows_out t.rows t.count) i no_grant) ≤ depths) }
{
    // The depth of each row, by its number, for the rows after it.
    let mut depths = [0u8; Table::ROWS];
    for i in 0..t.count {
        let x = t.rows[i];
        let d = held_depth(depths, x);
        if Row::DEPTHS <= d {
            return false;
        }
        depths[i] = d + 1;
    }
    true
}
