// The grant table: the rows by number, looking a row up, and giving a new row the lowest number not given.
#![tactic(auto)]

pub mod rowwords;

ghost use Rattle.std.specs.Prelude.{◌≡◌, ◌≤◌, ◌<◌};
ghost use Rattle.sorts.specs.Numbers.{grants};
ghost use Rattle.rows.specs.Inner.Lookup.{find_row, entered};

use sorts::{GrantNo, Row};
use std::marker::Model;

// The book's rows and the count of the numbers given: an array, since a book goes in and out by value and takes no memory. A table that is
// lent may have any count: so there is no invariant, and no method for `rows[..count]`.
#[derive(Clone, Copy)]
pub struct Table {
    pub rows: [Row; Table::ROWS],
    pub count: usize,
}

// A table while a record's grants are numbered; `full` where a grant found no number left. That is no `Err`, since a fault of the bytes
// that come after it is said before it.
#[derive(Clone, Copy)]
pub struct Numbering {
    pub table: Table,
    pub full: bool,
}

// No more numbers are given than there are.
impl Model for Numbering {
    ghost use Rattle.std.specs.Prelude.{◌≤◌};
    ghost use Rattle.sorts.specs.Numbers.{grants};
    ghost use Rattle.rows.specs.Numbers.{Numbers};

    ghost Value = { Numbers };

    ghost view = { λ a. record { table = a.table; full = a.full } };

    ghost invariant = { λ a. a.table.count ≤ grants };

    ghost inverse = { λ n. record { table = n.table; full = n.full } };
}

impl Table {
    pub const ROWS: usize = GrantNo::COUNT as usize;

    // The number of row r, if it has one.
    fn find(&self, r: &Row) -> Option<usize>
        requires { self.now.count ≤ grants }
        ensures { result ≡ find_row self.now r.now }
    {
        self.rows[..self.count].iter().position(|x| *x == *r)
    }
}

impl Numbering {
    // The number of row r: the one it has, or the lowest not given, which is then its own.
    #[tactic(auto, unfolding(crate::specs::Inner::Lookup::entered))]
    pub fn enter(&mut self, r: Row) -> GrantNo
        ensures no { result ≡ (entered self.old r).no }
        ensures numbering { self.new ≡ (entered self.old r).numbering }
        ensures inside { result.0 < grants }
    {
        if let Some(i) = self.table.find(&r) {
            return GrantNo(i as u8);
        }
        let n = self.table.count;
        if n < Table::ROWS {
            self.table.rows[n] = r;
            self.table.count = n + 1;
            return GrantNo(n as u8);
        }
        self.full = true;
        GrantNo(0)
    }
}
