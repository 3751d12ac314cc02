//! Keys in order, looked up by crate search. A key ends with the row of a country.
ghost use Rattle.std.specs.Prelude.{◌≡◌, ◌*◌, ◌/◌, get_or};
ghost use Rattle.lists.specs.Options.{option_of};
ghost use Rattle.nation_tables.specs.Lookup.{first_within, last_within};

use crate::keys::row_in;
use search::SortedKeys;
use std::ops::Range;

// The row in the first of the keys that is not below `low`, an even number, if that key is below `high`. The place of that key likely lies
// between the hints.
pub(crate) fn first_within(
    sorted: SortedKeys<'_>,
    low: u64,
    high: u64,
    hints: Range<usize>,
) -> Option<u16>
    ensures { option_of result ≡ first_within (low / 2 * 2) high sorted.entry.keys.now }
{
    let key = *sorted.keys.get(sorted.count_between(low, hints))?;
    (key < high).then_some(row_in(key))
}

/// The row in the last of the keys that is below `high`, an even number, if that key is not below `low`.
pub fn last_within(sorted: SortedKeys<'_>, low: u64, high: u64) -> Option<u16>
    ensures { option_of result ≡ last_within low (high / 2 * 2) sorted.entry.keys.now }
{
    let key = *sorted.keys[..sorted.count_below(high)].last()?;
    (low <= key).then_some(row_in(key))
}

/// The cell at a number, 0 past the end.
pub fn cell_at(cells: &[u64], i: usize) -> u64
    ensures { result ≡ get_or cells.now i 0 }
{
    cells.get(i).copied().unwrap_or(0)
}
