//! Which nation is stored under a country, in cells: sorted keys of country tags, with a cell for each. A cell holds the number of a nation, counted
//! from 1, so that 0, which memory holds to begin with, is none.
ghost use Rattle.std.specs.Prelude.{◌≡◌};
ghost use Rattle.lists.specs.Options.{option_of};
ghost use Rattle.search.specs.Places.{place_in};
ghost use Rattle.rows.specs.RowAt.{tags_stored};
ghost use Rattle.players.specs.Marks.{marked_at, marked_from, cell_at_place, number_in_cell};

use format::CountryTag;
use rows::Nations;
use search::{SortedKeys, first_place};

// Numbers of nations are words: each is below this.
const MARK_SPAN: u64 = 1 << 32;

// Writes the word into the cell at a place, unless a word stands there. By its index: a proof knows no cell behind `get_mut`.
fn mark_cell(cells: &mut [u64], place: Option<usize>, word: u64)
    ensures { cells.new ≡ marked_at cells.old (option_of place) word }
{
    let Some(p) = place else { return };
    if p < cells.len() {
        let free = cells[p] == 0;
        if free {
            cells[p] = word;
        }
    }
}

// Marks each country with the first nation that is stored under it.
pub(crate) fn mark_nations(nations: &[u32], countries: SortedKeys<'_>, cells: &mut [u64])
    ensures { cells.new ≡ marked_from (place_in countries.entry.keys.now) cells.old 0 (tags_stored nations.now) }
{
    for (number, row) in Nations::new(nations).enumerate() {
        mark_cell(cells, first_place(countries, row.stored), number as u64 + 1);
    }
}

// The number of the nation that is stored under a tag, if one is. What `as` turns has to fit, so the remainder is taken
// first.
pub(crate) fn stored_nation(
    countries: SortedKeys<'_>,
    cells: &[u64],
    tag: CountryTag,
) -> Option<u32>
    ensures { result ≡ number_in_cell (cell_at_place cells.now (place_in countries.entry.keys.now tag)) }
{
    let place = first_place(countries, tag)?;
    let number = cells.get(place)?.checked_sub(1)?;
    Some((number % MARK_SPAN) as u32)
}
