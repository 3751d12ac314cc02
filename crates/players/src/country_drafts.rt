//! A draft for each country that was played, in row order.
ghost use Rattle.std.specs.Prelude.{◌≡◌, ◌≤◌, length};
ghost use Rattle.record.specs.Cursors.{country_of};
ghost use Rattle.players.specs.CountryDrafts.{RunOf, draft_for, FillReady, FillsDrafts, DraftReady, HoldsDrafts};

use crate::draft_parts::{draft_of, nation_or_bare};
use crate::drafts::Draft;
use crate::marks::{mark_nations, stored_nation};
use crate::tag_tables;
use format::CountryTag;
use record::{Countries, CountryRow};
use search::{KEYS_PER_TAG, SortedKeys, tag_key};
use sorting::sort_keys;
use std::ops::Range;

// Where the players of a tag stand among all.
fn player_run(players: SortedKeys<'_>, tag: CountryTag) -> Range<usize>
    ensures { RunOf players.entry.keys.now tag result }
{
    let low = tag_key(tag, 0);
    players.count_below(low)..players.count_below(low + KEYS_PER_TAG)
}

// The draft of a country by the tables.
fn draft_for(
    row: CountryRow<'_>,
    nations: &[u32],
    tags: SortedKeys<'_>,
    cells: &[u64],
    players: SortedKeys<'_>,
) -> Draft
    requires { length players.keys.now ≤ 1000 }
    ensures { result
        ≡ draft_for nations.now tags.entry.keys.now cells.now players.entry.keys.now (country_of row.entry) }
{
    let tag = row.tag;
    let number = stored_nation(tags, cells, tag);
    let nation = nation_or_bare(nations, tag, number);
    let run = player_run(players, tag);
    draft_of(row, nation, number, run.start as u32, run.len() as u32)
}

// Writes the draft of each country that was played, and returns how many.
fn fill_drafts(
    countries: Countries<'_>,
    nations: &[u32],
    tags: SortedKeys<'_>,
    cells: &[u64],
    players: SortedKeys<'_>,
    out: &mut [Draft],
) -> usize
    requires { FillReady countries players.keys.now out.old }
    ensures { FillsDrafts countries.entry nations.now tags.entry.keys.now cells.now players.entry.keys.now
        result out.old out.new }
{
    let mut n = 0;
    for row in countries {
        if row.was_player {
            out[n] = draft_for(row, nations, tags, cells, players);
            n += 1;
        }
    }
    n
}

// Drafts the histories of a record, of which there are at most as many as countries, and returns how many. Arrays hold the tags and the cells of at
// most so many countries, for no memory is allocated.
pub(crate) fn draft_countries<const COUNTRIES: usize>(
    countries: Countries<'_>,
    nations: &[u32],
    players: SortedKeys<'_>,
    out: &mut [Draft],
) -> usize
    requires { DraftReady COUNTRIES countries players.keys.now out.old }
    ensures { HoldsDrafts COUNTRIES countries.entry nations.now players.entry.keys.now result out.new }
{
    let mut tags = [0u64; COUNTRIES];
    let mut cells = [0u64; COUNTRIES];
    let n = countries.len();
    tag_tables::fill_countries(countries, &mut tags);
    // The sort leaves its scratch cleared, so that no country is marked yet.
    sort_keys(&mut tags[..n], &mut cells);
    let tags = SortedKeys { keys: &tags[..n] };
    mark_nations(nations, tags, &mut cells);
    fill_drafts(countries, nations, tags, &cells, players, out)
}
