//! Tables of the countries: tags in row order, and keys in order by which a country's row is found.
ghost use Rattle.std.specs.Prelude.{◌≤◌, ◌≡◌, map, length};
ghost use Rattle.lists.specs.Options.{option_of};
ghost use Rattle.record.specs.Cursors.{countries_left};
ghost use Rattle.rules.specs.Lent.{written};
ghost use Rattle.nation_tables.specs.Layout.{most_countries, most_switches, key_rows};
ghost use Rattle.nation_tables.specs.Countries.{Keyed, with_own, switch_keys_from, TagsRoom, Tabled, row_keys, initial_row};

use crate::keys::row_key;
use crate::layout::KEY_ROWS;
use crate::lookup;
use crate::switches::first_tag;
use format::CountryTag;
use record::Countries;
use search::SortedKeys;

// Countries of a record. They and their switches have room in keys, each country with a switch more, from its own tag and behind every date.
#[derive(Clone, Copy)]
pub(crate) struct KeyedCountries<'a> {
    pub(crate) countries: Countries<'a>,
    pub(crate) ghost keyed: { Keyed (map with_own (countries_left countries)) },
    pub(crate) ghost few: { length (countries_left countries) ≤ most_countries },
    pub(crate) ghost few_switches: { length (switch_keys_from 0 (countries_left countries)) ≤ most_switches },
}

// Writes each country's tag, and the word of its initial, in row order. The initials as numbers: keys are made of them at once, and their cells hold
// counts later.
pub(crate) fn fill_tags_and_initials(
    countries: Countries,
    tags: &mut [CountryTag],
    initials: &mut [u32],
)
    requires { TagsRoom (countries_left countries) tags.old initials.old }
    ensures { Tabled (countries_left countries.entry) tags.old tags.new initials.old initials.new }
{
    for (row, country) in countries.enumerate() {
        tags[row] = country.tag;
        initials[row] = u32::from(first_tag(country));
    }
}

// Writes the keys of words, in order: each word with its row below it. By index: no cell is known behind a `zip` with `iter_mut`.
// No word is tested again. The scratch is to have room for as many keys.
pub(crate) fn row_keys(words: &[u32], keys: &mut [u64], scratch: &mut [u64])
    requires { (length words.now ≤ key_rows) × (length words.now ≤ length keys.old) }
    ensures { keys.new ≡ written (row_keys words.now) keys.old }
{
    for (i, word) in words.iter().enumerate() {
        keys[i] = row_key(CountryTag::from_word_unchecked(*word), i as u64);
    }
    sorting::sort_keys(&mut keys[..words.len()], scratch);
}

/// The last row of a country with an initial, by the keys of initials: the country that the initial maps to.
pub fn mapped_row(initials: SortedKeys<'_>, tag: CountryTag) -> Option<u16>
    ensures { option_of result ≡ initial_row initials.entry.keys.now tag }
{
    let low = u64::from(u32::from(tag)) * KEY_ROWS;
    lookup::last_within(initials, low, low + KEY_ROWS)
}
