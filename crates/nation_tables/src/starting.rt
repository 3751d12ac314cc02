//! The holders of the slots at the start, by the rows of countries.
ghost use Rattle.std.specs.Prelude.{◌≡◌, true, ltb, length};
ghost use Rattle.lists.specs.Lists.{all_of};
ghost use Rattle.lists.specs.Options.{option_of};
ghost use Rattle.record.specs.Cursors.{provinces_left};
ghost use Rattle.nation_tables.specs.Layout.{row_number};
ghost use Rattle.nation_tables.specs.Countries.{initial_number};
ghost use Rattle.nation_tables.specs.Starting.{put_owners, Slotted, Started};

use crate::countries;
use crate::layout::NO_ROW;
use format::CountryTag;
use record::Provinces;
use search::SortedKeys;

// The number of a row in a cell, or that of none.
fn row_number(row: Option<u16>) -> u64
    ensures { result ≡ row_number (option_of row) }
{
    u64::from(row.unwrap_or(NO_ROW))
}

// Gives the slot of each province the row that its owner maps to, by the keys of initials.
fn put_owners(provinces: Provinces, initials: SortedKeys<'_>, rows: &mut [u64])
    requires { all_of (λ p. ltb p.id.0 (length rows.old)) (provinces_left provinces) ≡ true }
    ensures { rows.new ≡ put_owners (initial_number initials.entry.keys.now) (provinces_left provinces.entry) rows.old }
{
    for province in provinces {
        let at = u32::from(province.id) as usize;
        rows[at] = row_number(countries::mapped_row(initials, province.owner));
    }
}

// Writes the row of each slot's holder at the start, or NO_ROW: of the country that the slot's tag maps to, by the keys of initials.
// A slot without a province has the tag `---`.
pub(crate) fn start_rows(provinces: Provinces, initials: SortedKeys<'_>, rows: &mut [u64])
    requires { Slotted (length rows.old) (provinces_left provinces) }
    ensures { Started initials.entry.keys.now (provinces_left provinces.entry) (length rows.old) rows.new }
{
    rows.fill(row_number(countries::mapped_row(initials, CountryTag::NONE)));
    put_owners(provinces, initials, rows);
}
