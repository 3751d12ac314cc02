//! How many points a span gives, a nation, and all nations. A count stops at what is left of the most that is asked for: so no sum passes
//! that.
ghost use Rattle.std.specs.Prelude.{◌≡◌, min, length};
ghost use Rattle.rules.specs.Ledger.{span_points};
ghost use Rattle.record.specs.Cursors.{ledgers_left};
ghost use Rattle.ledger.specs.RowLedgers.{row_ledger, row_ledgers};

use crate::index::LedgerIndex;
use crate::point_counts::count_span;
use crate::spans::Spans;
use format::{NationRow, Span};
use rows::{Chronicle, Nations};

impl LedgerIndex<'_, '_> {
    // How many points a span gives, at most so many.
    fn count_points(&self, span: Span, most: usize) -> usize
        ensures { result ≡ min (length (span_points (ledgers_left self.now.opened.ledgers) span)) most }
    {
        match self.points_of(span.tag) {
            Some(points) => count_span(points, span, most),
            None => 0,
        }
    }

    // How many points a nation has, at most so many: it stops as soon as these are reached.
    pub(crate) fn count(&self, entries: &[u32], nation: NationRow, most: usize) -> usize
        ensures { result ≡ min (length (row_ledger self.now.opened entries.now nation)) most }
    {
        let mut n = 0;
        for span in Spans::new(entries, nation, self.opened.start, self.opened.current) {
            if n == most {
                return n;
            }
            n += self.count_points(span, most - n);
        }
        n
    }

    // How many points all nations have, at most so many: once these are reached, no further nation is looked at.
    pub(crate) fn count_all(&self, chronicle: Chronicle<'_>, most: usize) -> usize
        ensures { result
            ≡ min (length (row_ledgers self.now.opened chronicle.entry.nations.now chronicle.entry.entries.now)) most }
    {
        let mut n = 0;
        for nation in Nations::new(chronicle.nations) {
            n += self.count(chronicle.entries, nation, most - n);
            if n == most {
                return n;
            }
        }
        n
    }
}
