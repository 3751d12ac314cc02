//! The points of a span, written as rows: as many as find room.
ghost use Rattle.std.specs.Prelude.{◌≡◌, [], ◌∷◌};
ghost use Rattle.rules.specs.Ledger.{zeros};
ghost use Rattle.ledger.specs.PointSteps.{year_filled, span_filled, FillsSpan};

use format::{CountryTag, LedgerPoint, Point, Span};
use record::Points;
use rows::{LEDGER_WIDTH, ToRow, put};

// Writes the row of a point if it finds room: one row, or none.
fn write_point(point: LedgerPoint, out: &mut [u32]) -> usize
    ensures { FillsSpan (point ∷ []) result out.old out.new }
{
    usize::from(put(point.to_row(), out))
}

// Writes a zero for each year from the running one on before another, as many as find room, and gives their number.
fn write_zeros(tag: CountryTag, running: usize, until: u32, out: &mut [u32]) -> usize
    ensures { FillsSpan (zeros tag running until) result out.old out.new }
{
    let years = (until as usize).saturating_sub(running);
    let n = years.min(out.len() / LEDGER_WIDTH);
    // By places: a proof knows no cell that is written through `chunks_exact_mut`.
    for i in 0..n {
        let zero = LedgerPoint {
            tag,
            year: (running + i) as u32,
            value: 0,
        };
        write_point(zero, &mut out[LEDGER_WIDTH * i..]);
    }
    n
}

// Writes a point behind the zeros of the years before it, as many as find room, and gives their number. Most points follow the year before: no zero is
// asked for then.
fn write_year(tag: CountryTag, running: usize, point: Point, out: &mut [u32]) -> usize
    ensures { FillsSpan (year_filled tag running point) result out.old out.new }
{
    let row = LedgerPoint {
        tag,
        year: point.year,
        value: point.value,
    };
    if point.year as usize <= running {
        return write_point(row, out);
    }
    let n = write_zeros(tag, running, point.year, out);
    n + write_point(row, &mut out[LEDGER_WIDTH * n..])
}

// Writes the points of a span with those of its ledger row, three words each, as many as find room, and gives their number.
pub(crate) fn write_span(points: Points<'_>, span: Span, out: &mut [u32]) -> usize
    ensures { FillsSpan (span_filled points.entry span) result out.old out.new }
{
    let first = span.start.year();
    let last = span.end.year();
    let mut running = first as usize + 1;
    let mut n = 0;
    for point in points
        .skip_while(|point| point.year < first)
        .take_while(|point| point.year <= last)
    {
        n += write_year(span.tag, running, point, &mut out[LEDGER_WIDTH * n..]);
        running = point.year as usize + 1;
    }
    n + write_zeros(span.tag, running, last + 1, &mut out[LEDGER_WIDTH * n..])
}
