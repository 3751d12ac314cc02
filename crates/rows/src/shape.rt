//! Whether nation words and entry words are a well-shaped chronicle.
ghost use Rattle.std.specs.Prelude.{◌≡◌, ◌&&◌, map, true, [], IsTrue, ◌↔◌, EachIndex, slice_index_or};
ghost use Rattle.lists.specs.Lists.{all_of};
ghost use Rattle.rules.specs.NationRows.{nation_row_of, entry_row_of, tags_shaped, kind_shaped, entry_shaped, without_gap, well_shaped};

use crate::lent_rows::Row;
use crate::nation_rows::{ENTRY_WIDTH, NATION_WIDTH};
use format::{CountryTag, Eu4Date, NationRow};

// Whether a kind is one of three, with a tag as target for a switch and 0 for the others. It is asked of the row's numbers, for `EntryKind` has no case for
// a bad one.
#[tactic(auto, using(crate::proofs::LentShapeLaws::switch_made, crate::proofs::LentShapeLaws::life_shaped))]
fn kind_shaped(kind: u32, target: u32) -> bool
    ensures { result ≡ kind_shaped kind target }
{
    match kind {
        0 => CountryTag::try_from(target).is_ok(),
        _ => (kind <= 2) & (target == 0),
    }
}

// Whether an entry's date is good, and its kind and target.
#[tactic(auto, using(crate::proofs::LentShapeLaws::date_made))]
fn entry_shaped(row: &[u32; ENTRY_WIDTH]) -> bool
    ensures { result ≡ entry_shaped (entry_row_of row.now) }
{
    let [date, kind, target] = *row;
    Eu4Date::try_from(date).is_ok() & kind_shaped(kind, target)
}

// Whether every entry row is shaped.
fn entries_shaped(entries: &[[u32; ENTRY_WIDTH]]) -> bool
    ensures { IsTrue result ↔ EachIndex entries.now (λ k. entry_shaped (entry_row_of (slice_index_or entries.now k [])) ≡ true) }
{
    entries.iter().all(entry_shaped)
}

// Whether a nation's three tags are tags.
fn tags_shaped(nation: NationRow) -> bool
    ensures { result ≡ tags_shaped nation }
{
    nation.initial.is_valid() & nation.latest.is_valid() & nation.stored.is_valid()
}

// Whether every nation's tags are tags, and their entries follow each other from 0 to the end. A count is held against what is left of
// the entries before it is added: so no sum can pass the end.
fn nations_shaped(nations: &[[u32; NATION_WIDTH]], end: usize) -> bool
    ensures { result ≡ (all_of tags_shaped (map nation_row_of nations.now) && without_gap 0 (map nation_row_of nations.now) end) }
{
    let mut next: usize = 0;
    for &row in nations {
        let nation = NationRow::read(row);
        let first = nation.first as usize;
        let count = nation.count as usize;
        let follows = tags_shaped(nation) & (first == next) & (count <= end - next);
        if !follows {
            return false;
        }
        next += count;
    }
    next == end
}

// Whether nation words and entry words, of any lengths, are a well-shaped chronicle: one pass over each.
pub(crate) fn is_well_shaped(nations: &[u32], entries: &[u32]) -> bool
    ensures { result ≡ well_shaped nations.now entries.now }
{
    let (nations, nations_over) = nations.as_chunks::<NATION_WIDTH>();
    let (entries, entries_over) = entries.as_chunks::<ENTRY_WIDTH>();
    if !(nations_over.is_empty() & entries_over.is_empty()) {
        return false;
    }
    nations_shaped(nations, entries.len()) && entries_shaped(entries)
}
