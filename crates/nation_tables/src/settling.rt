//! Whom a change settles to, by the rows of countries.
ghost use Rattle.std.specs.Prelude.{◌≡◌, ◌<◌};
ghost use Rattle.lists.specs.Options.{option_of};
ghost use Rattle.nation_tables.specs.Layout.{short_span, key_tags};
ghost use Rattle.nation_tables.specs.Settling.{settling_row};

use crate::layout::{BYTE_SPAN, SHORT_SPAN, TAG_SPAN};
use crate::{keys, lookup};
use format::{CountryTag, Eu4Date};
use search::SortedKeys;

// The table of hints has a cell for each two bytes that a tag may begin with: for each first byte so many cells, one for each second byte. So many numbers
// there are from `-`, the least byte of a tag, to `z`, the greatest.
const SECOND_BYTES: u64 = 78;

// The least byte of a tag, `-`.
const LEAST_BYTE: u64 = 45;

// How many cells of 16 bits such a table has: one for each cell of tags, and two behind the last.
pub(crate) const STARTS: usize = (SECOND_BYTES * SECOND_BYTES) as usize + 2;

// From so many changes on it takes less time to make the hints than to search without them.
pub(crate) const HINTS_FROM: usize = 128;

// Added to cells that are counted from byte 0, it has them counted from LEAST_BYTE, in 16 bits: tags that begin with `--` come to 0. It is added, for a
// difference might fall below 0 where the word is no tag's.
const FIRST_CELL: u64 = SHORT_SPAN - (SECOND_BYTES + 1) * LEAST_BYTE;

// The cell of a tag, by its first two bytes. There are fewer than SECOND_BYTES from one tag byte to another, so all tags of a later cell are later ones.
fn start_cell(tag: CountryTag) -> usize
    ensures { result < short_span }
{
    let word = u64::from(u32::from(tag));
    let first = word / SHORT_SPAN % BYTE_SPAN;
    let second = word / BYTE_SPAN % BYTE_SPAN;
    ((first * SECOND_BYTES + second + FIRST_CELL) % SHORT_SPAN) as usize
}

// Notes behind each cell where the keys of its tags end. Of what the table holds nothing is promised: it is hints. A tag out of a key is not tested again.
fn note_ends(keys: &[u64], starts: &mut [u16]) {
    for (i, key) in keys.iter().enumerate() {
        let tag = CountryTag::from_word_unchecked((*key / TAG_SPAN) as u32);
        if let Some(start) = starts.get_mut(start_cell(tag) + 1) {
            *start = ((i + 1) % SHORT_SPAN as usize) as u16;
        }
    }
}

// Has a cell without keys begin where the cell before it ends.
fn raise_starts(starts: &mut [u16]) {
    let mut most = 0;
    for start in starts.iter_mut() {
        most = most.max(*start);
        *start = most;
    }
}

// Makes the hints.
pub(crate) fn note_starts(keys: &[u64], starts: &mut [u16]) {
    note_ends(keys, starts);
    raise_starts(starts);
}

// The hint in a cell, 0 where there is no such cell: a hint is tested before use, so any number will do.
fn hint(starts: &[u16], cell: usize) -> usize {
    usize::from(starts.get(cell).copied().unwrap_or(0))
}

// The row of the country that a change settles to, or none where it settles to a tag that is no country's: by the keys of switches and
// countries, and hints where those of a cell of tags begin.
pub(crate) fn settling_row(
    sorted: SortedKeys<'_>,
    starts: &[u16],
    to: CountryTag,
    date: Eu4Date,
) -> Option<u16>
    requires { to.0 < key_tags }
    ensures { option_of result ≡ settling_row sorted.entry.keys.now to date }
{
    let low = keys::settling_key(to, date, 0);
    let word = u64::from(u32::from(to));
    let cell = start_cell(to);
    lookup::first_within(
        sorted,
        low,
        (word + 1) * TAG_SPAN,
        hint(starts, cell)..hint(starts, cell + 1),
    )
}
