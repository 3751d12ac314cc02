//! A table of a chronicle's nations: the sorted keys of the tags that they are stored under.
ghost use Rattle.std.specs.Prelude.{◌≡◌, ◌≤◌, leb, ltb, length};
ghost use Rattle.std.specs.List.{list_all};
ghost use Rattle.sorting.specs.Sort.{sort_by};
ghost use Rattle.rules.specs.Lent.{written};
ghost use Rattle.rules.specs.NationRows.{nation_rows_in};
ghost use Rattle.search.specs.Places.{tag_keys_from};
ghost use Rattle.rows.specs.RowAt.{tags_stored};
ghost use Rattle.pages.specs.Stored.{LineTables, line_of, stored_left};

use crate::lines::{FEW_ENTRIES, Line, absent_line, row_line};
use format::{CountryTag, MOST_COUNTRIES};
use rows::{Nations, nation_row_at};
use search::{SortedKeys, first_place, tag_key};
use sorting::sort_keys;

// Writes the key of each nation's stored tag, in row order: by index, since a proof knows no cell that is written through a `zip` with `iter_mut`.
// One more such loop stands in histories, over countries. A function for both would be public, without `requires`: a trait would have to say that its
// iterator may be asked and ends, as `Changing` does (change_keys). That trait and its two impls take 27 lines, and the two loops 18 with their contracts.
#[tactic(auto, unfolding(search::specs::Places::tag_keys_from))]
fn fill_stored(nations: Nations<'_>, keys: &mut [u64; MOST_COUNTRIES])
    requires { length (stored_left nations) ≤ 2000 }
    ensures { keys.new ≡ written (tag_keys_from 0 (stored_left nations.entry)) keys.old }
{
    for (i, nation) in nations.enumerate() {
        keys[i] = tag_key(nation.stored, i);
    }
}

// The keys of the tags that the nations are stored under, in order, in cells for the most nations.
pub(crate) fn sort_stored<'a>(
    nations: &[u32],
    keys: &'a mut [u64; MOST_COUNTRIES],
) -> SortedKeys<'a>
    requires { length (nation_rows_in nations.now) ≤ 2000 }
    ensures { result.keys.now ≡ sort_by leb (tag_keys_from 0 (tags_stored nations.now)) }
{
    let nations = Nations::new(nations);
    fill_stored(nations, keys);
    // No heap: a scratch for the most nations.
    let mut scratch = [0u64; MOST_COUNTRIES];
    let keys = &mut keys[..nations.len()];
    sort_keys(keys, &mut scratch);
    SortedKeys { keys }
}

// Whether every nation's count has at most four digits.
pub(crate) fn are_short(nations: &[u32]) -> bool
    ensures { result ≡ list_all (λ r. ltb r.count FEW_ENTRIES) (nation_rows_in nations.now) }
{
    Nations::new(nations).all(|nation| nation.count < FEW_ENTRIES)
}

// What the line of a tag is found by: the rows of nations with a status cell each, and the sorted keys of the tags that they are stored under. Rows and
// cells are slices of their own, as `write_text` is lent them: a nation's row has no word for its status.
#[derive(Clone, Copy)]
pub(crate) struct StoredNations<'a, 'k> {
    pub(crate) nations: &'a [u32],
    pub(crate) living: &'a [bool],
    pub(crate) keys: SortedKeys<'k>,
    ghost tables: { LineTables nations.now keys.keys.now living.now },
}

impl StoredNations<'_, '_> {
    // The line of a tag: of the nation stored under it, if there is one.
    pub(crate) fn line(&self, tag: CountryTag) -> Line
        ensures { result.items ≡ line_of self.now.nations.now self.now.living.now tag }
    {
        match first_place(self.keys, tag) {
            Some(i) => row_line(nation_row_at(self.nations, i), self.living[i]),
            None => absent_line(tag),
        }
    }
}
