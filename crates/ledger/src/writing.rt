//! The rows of a span, of a nation, and of all nations, each straight into its place.
ghost use Rattle.std.specs.Prelude.{◌*◌, ◌≤◌, length};
ghost use Rattle.rules.specs.Ledger.{span_points, ledger_width};
ghost use Rattle.rules.specs.NationRows.{nation_rows_in};
ghost use Rattle.record.specs.Cursors.{ledgers_left};
ghost use Rattle.ledger.specs.PointSteps.{FillsSpan};
ghost use Rattle.ledger.specs.RowLedgers.{row_ledger, row_ledgers, WritesLedgers};

use crate::filling::write_span;
use crate::index::LedgerIndex;
use crate::spans::Spans;
use format::{NationRow, Span};
use rows::{Chronicle, LEDGER_WIDTH, Nations};

impl LedgerIndex<'_, '_> {
    // Writes the rows of a span, as many as find room, and gives their number.
    fn write_points(&self, span: Span, out: &mut [u32]) -> usize
        ensures { FillsSpan (span_points (ledgers_left self.now.opened.ledgers) span) result out.old out.new }
    {
        match self.points_of(span.tag) {
            Some(points) => write_span(points, span, out),
            None => 0,
        }
    }

    // Writes the rows of a nation, those of each span behind those before it, as many as find room, and gives their number.
    pub(crate) fn write(&self, entries: &[u32], nation: NationRow, out: &mut [u32]) -> usize
        ensures { FillsSpan (row_ledger self.now.opened entries.now nation) result out.old out.new }
    {
        let mut n = 0;
        for span in Spans::new(entries, nation, self.opened.start, self.opened.current) {
            n += self.write_points(span, &mut out[LEDGER_WIDTH * n..]);
        }
        n
    }

    // Writes the rows of all nations, each nation's behind those before it, and for each the number of its points. A proof
    // knows no cell that is written through a `zip` with `iter_mut`.
    pub(crate) fn write_all(&self, chronicle: Chronicle<'_>, out: &mut [u32], counts: &mut [u64])
        requires rows_in_bounds { ledger_width
            * length (row_ledgers self.now.opened chronicle.nations.now chronicle.entries.now)
            ≤ length out.old }
        requires counts_in_bounds { length (nation_rows_in chronicle.nations.now) ≤ length counts.old }
        ensures { WritesLedgers self.now.opened chronicle.entry.nations.now chronicle.entry.entries.now
            out.old counts.old out.new counts.new }
    {
        let mut passed = 0;
        let mut left = Nations::new(chronicle.nations);
        for count in counts.iter_mut() {
            let Some(nation) = left.next() else {
                return;
            };
            let n = self.write(chronicle.entries, nation, &mut out[LEDGER_WIDTH * passed..]);
            *count = n as u64;
            passed += n;
        }
    }
}
