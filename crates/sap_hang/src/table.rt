//! Tables of what hangs where.

ghost use Rattle.std.specs.Prelude.{◌≡◌};
ghost use Rattle.sap_hang.specs.Hang.{says, says_of_root};

use crate::set::Set;
use std::marker::Model;

/// What hangs on each point of a design and on its root, seen as a row for each of them, which says of each entity whether it hangs
/// there. Kept is for each row a set of numbers, and for each entity the number that it has in the sets: that of the first of its name.
#[derive(Drop)]
pub struct HangTable {
    pub(crate) rows: Vec<Set>,
    pub(crate) root: Set,
    pub(crate) firsts: Vec<u32>,
}

impl Model for HangTable {
    ghost use Rattle.sap_hang.specs.Hang.{Table};

    ghost Value = { Table };

    ghost use Rattle.sap_hang.specs.Rows.{row_of, rows_of};

    ghost view = { λ t. record { points = rows_of t.firsts.items t.rows.items; root = row_of t.firsts.items t.root } };
}

impl HangTable {
    /// Whether the entity hangs on the point. Points are numbered from 1 and entities from 0; on what is no point nothing hangs.
    pub fn hangs(&self, point: u32, entity: u32) -> bool
        ensures { result ≡ says self.now point entity }
    {
        if point == 0 {
            return false;
        }
        match self.rows.get(point as usize - 1) {
            Some(row) => match self.firsts.get(entity as usize) {
                Some(number) => row.has(*number),
                None => false,
            },
            None => false,
        }
    }

    /// Whether the root's fall touches the entity.
    pub fn touched_by_root(&self, entity: u32) -> bool
        ensures { result ≡ says_of_root self.now entity }
    {
        match self.firsts.get(entity as usize) {
            Some(number) => self.root.has(*number),
            None => false,
        }
    }
}
