//! The listed nations, in the order of the keys of initials.
ghost use Rattle.std.specs.Prelude.{◌≡◌, ◌<◌, All};
ghost use Rattle.nation_tables.specs.Layout.{key_rows, row_key_span};
ghost use Rattle.nation_tables.specs.Keys.{word_in};
ghost use Rattle.nations.specs.Tables.{KeyInside};
ghost use Rattle.nations.specs.Reading.{cells_in};

use crate::country_entries;
use crate::country_entries::Entries;
use crate::country_lives::Lives;
use crate::tables::NationTables;
use format::CountryTag;
use nation_tables::{KEY_ROWS, ROW_SPAN, row_in};

// A listed nation: its initial and its latest tag, the tag that it is stored under, and its entries.
#[derive(Clone, Copy)]
pub(crate) struct ListedNation<'a> {
    pub initial: CountryTag,
    pub latest: CountryTag,
    pub stored: CountryTag,
    pub entries: Entries<'a>,
}

// The initial in a key. Its word is a tag's, and is not tested again.
fn initial_in(key: u64) -> CountryTag
    requires { key < row_key_span }
    ensures { result.0 ≡ word_in key }
{
    CountryTag::from_word_unchecked((key / KEY_ROWS) as u32)
}

impl<'a> NationTables<'a> {
    ghost use Rattle.nations.specs.CountryLives.{walk_in};
    ghost use Rattle.nations.specs.ListedNations.{is_listed, run_of, key_nations, nation_listed, nations_in, listed_left};

    // Whether the country of an initial's key is listed: it is the last row of its initial, and held a slot ever.
    fn is_listed(&self, key: u64, lives: &Lives) -> bool
        requires { key < row_key_span }
        ensures { result ≡ is_listed self.now.initial_keys.keys.now key (walk_in lives.now) }
    {
        let mapped = nation_tables::mapped_row(self.initial_keys, initial_in(key));
        (mapped == Some(row_in(key))) & lives.holds_ever()
    }

    // The keys of a row's switches.
    fn run(&self, row: u64) -> &'a [u64]
        requires { row < key_rows }
        ensures { result.now ≡ run_of self.now.runs.keys.now row }
    {
        let from = self.runs.count_below(row * ROW_SPAN);
        let end = self.runs.count_below((row + 1) * ROW_SPAN);
        &self.runs.keys[from..end]
    }

    // The nation of a key of an initial, if it is listed.
    fn listed(&self, key: u64) -> Option<ListedNation<'a>>
        requires { KeyInside (cells_in self.now) key }
        ensures { nation_listed result ≡ key_nations (cells_in self.now) key }
    {
        let row = usize::from(row_in(key));
        let lives = Lives::new(self, row);
        if !self.is_listed(key, &lives) {
            return None;
        }
        let run = self.run(row as u64);
        let initial = initial_in(key);
        Some(ListedNation {
            initial,
            latest: country_entries::latest(run, self.targets, initial),
            stored: self.tags[row],
            entries: Entries::new(run, self.targets, lives),
        })
    }

    // The listed nations.
    pub(crate) fn nations(&self) -> ListedNations<'_>
        ensures { listed_left result ≡ nations_in self.now }
    {
        ListedNations {
            tables: self,
            keys: self.initial_keys.keys,
        }
    }
}

// An iterator over the listed nations: the tables, and the keys of initials that are left.
#[derive(Clone, Copy)]
pub(crate) struct ListedNations<'a> {
    tables: &'a NationTables<'a>,
    keys: &'a [u64],
    ghost inside: { All (KeyInside (cells_in tables.now)) keys.now },
}

impl<'a> Iterator for ListedNations<'a> {
    ghost use Rattle.std.specs.Iterator.{YieldsFirstBy, item_count};
    ghost use Rattle.nations.specs.ListedNations.{listed_in, listed_left};

    type Item = ListedNation<'a>;

    ghost next_gives = { YieldsFirstBy listed_in listed_left };

    ghost remaining = { item_count listed_left };

    // A `while let`: what `find_map` leaves is not told.
    fn next(&mut self) -> Option<ListedNation<'a>> {
        while let Some((key, rest)) = self.keys.split_first() {
            self.keys = rest;
            if let Some(nation) = self.tables.listed(*key) {
                return Some(nation);
            }
        }
        None
    }
}
