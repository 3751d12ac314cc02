//! An iterator over the ledger names, each with its points.
ghost use Rattle.std.specs.Prelude.{◌≡◌, map, length};
ghost use Rattle.lists.specs.Lists.{sum_of};
ghost use Rattle.format.specs.Rows.{ledger_at, point_at};

use crate::rows::{Points, Rows};
use format::{CountryTag, PackedLedger};

/// A ledger name's row, with its points.
#[derive(Clone, Copy)]
pub struct LedgerRow<'a> {
    pub tag: CountryTag,
    pub points: Points<'a>,
}

/// The ledger names left, and the points that they share, of which there are as many as the names count.
#[derive(Clone, Copy)]
pub struct Ledgers<'a> {
    pub(crate) rows: Rows<'a, PackedLedger, 5>,
    pub(crate) points: Points<'a>,
    ghost counted: { sum_of (λ r. r.points) (map (λ row. ledger_at row 0) rows.packed.now) ≡ length (map (λ row. point_at row 0) points.packed.now) },
}

#[tactic(auto, using(crate::proofs::CountLaws::counts, crate::proofs::SharedLaws::points_shared))]
impl<'a> Ledgers<'a> {
    ghost use Rattle.std.specs.Prelude.{take, drop};
    ghost use Rattle.lists.specs.Lists.{join_of};
    ghost use Rattle.record.specs.Cursors.{ledgers_left, points_left};

    /// How many ledger names are left.
    pub fn len(&self) -> usize
        ensures { result ≡ length (ledgers_left self.now) }
    {
        self.rows.len()
    }

    /// So many of the points of all names left, one name's behind the other's, from a number on; as far as there are any.
    pub fn points_from(&self, first: usize, n: usize) -> Points<'a>
        ensures { points_left result ≡ take n (drop first (join_of (λ l. l.points) (ledgers_left self.now))) }
    {
        let mut points = self.points;
        points.take_front(first);
        points.take_front(n)
    }
}

#[tactic(auto, using(crate::proofs::SharedLaws::points_rest), unfolding(format::specs::Campaign::group_ledgers))]
impl<'a> Iterator for Ledgers<'a> {
    ghost use Rattle.std.specs.Iterator.{YieldsFirstBy, item_count};
    ghost use Rattle.record.specs.Cursors.{ledger_of, ledgers_left};

    type Item = LedgerRow<'a>;

    ghost next_gives = { YieldsFirstBy ledger_of ledgers_left };

    ghost remaining = { item_count ledgers_left };

    fn next(&mut self) -> Option<LedgerRow<'a>> {
        let row = self.rows.next()?;
        let points = self.points.take_front(row.points as usize);
        Some(LedgerRow {
            tag: row.tag,
            points,
        })
    }
}
