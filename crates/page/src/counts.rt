//! The counts of nations, in a lent slice of their own.
ghost use Rattle.std.specs.Prelude.{◌≡◌, leb, length};
ghost use Rattle.page.specs.Host.{number_of_counts, Returns, word_cells};
ghost use Rattle.page.specs.Inner.{low_word, low_counts};

use crate::found::put_words;
use format::NationCounts;

// How many counts there are.
const COUNTS: usize = 5;

// How many counts a word can tell apart: each is below it.
const COUNT_SPAN: usize = 1 << 32;

// Whether a slice has room for the counts.
pub(crate) fn has_counts(out: &[u32]) -> bool
    ensures { result ≡ leb number_of_counts (length out.now) }
{
    COUNTS <= out.len()
}

// The lowest 32 bits of a count: what `as` turns has to fit, so the remainder is taken first.
fn low_word(count: usize) -> u32
    ensures { result ≡ low_word count }
{
    (count % COUNT_SPAN) as u32
}

// Writes the five counts, and gives 5: their lowest 32 bits, which of every record are all. Without room for them it gives minus 10, and
// nothing is written.
pub(crate) fn put_counts(counts: NationCounts, out: &mut [u32]) -> i64
    ensures { Returns (word_cells (low_counts counts) out.old) result out.new }
{
    put_words(
        [
            low_word(counts.nations),
            low_word(counts.entries),
            low_word(counts.slots),
            low_word(counts.countries),
            low_word(counts.changes),
        ],
        out,
    )
}
