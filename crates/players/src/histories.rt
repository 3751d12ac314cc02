//! `player_histories`: the histories of the countries that were played.
ghost use Rattle.std.specs.Prelude.{◌≡◌, true, ◌≤◌, length};
ghost use Rattle.record.specs.Cursors.{countries_left};
ghost use Rattle.rules.specs.Lent.{outcome_of};
ghost use Rattle.rules.specs.NationRows.{nation_rows_in, well_shaped};
ghost use Rattle.rules.specs.PlayerOutcomes.{call_player_histories};
ghost use Rattle.players.specs.LentSlices.{history_cells};

use crate::arranged_drafts::arrange_drafts;
use crate::draft_parts::open_numbered;
use crate::drafts::Draft;
use crate::walk::PlayersOf;
use crate::{country_drafts, tag_tables};
use format::{HistoryCounts, MOST_COUNTRIES, MOST_STRINGS, Refusal};
use record::Record;
use rows::Chronicle;

// A record of no more countries has few: tables for so many take less time to clear than those for the most.
const FEW_COUNTRIES: usize = 64;

// Sorts the players, drafts a history for each country that was played, and arranges them, in tables for at most so many countries. Arrays hold the
// keys and the drafts, for no memory is allocated.
fn drafted_histories<const COUNTRIES: usize>(
    opened: Record<'_>,
    chronicle: Chronicle<'_>,
    histories: &mut [u32],
    names: &mut [u32],
) -> Result<HistoryCounts, Refusal>
    requires enough { length (countries_left opened.countries) ≤ COUNTRIES }
    requires possible { COUNTRIES ≤ 2000 }
    requires shaped { well_shaped chronicle.nations.now chronicle.entries.now ≡ true }
    requires numbered { length (nation_rows_in chronicle.nations.now) ≤ 4294967295 }
    ensures { outcome_of (λ n. n) result (history_cells histories.new names.new)
        ≡ call_player_histories opened.entry.bytes.now chronicle.entry.nations.now chronicle.entry.entries.now
        (history_cells histories.old names.old) }
{
    let mut keys = [0u64; MOST_STRINGS];
    let mut drafts = [Draft::blank(); COUNTRIES];
    let players = PlayersOf::new(opened.strings, opened.multiplayer);
    let players = tag_tables::sort_players(players, &mut keys);
    let nations = chronicle.nations;
    let n = country_drafts::draft_countries::<COUNTRIES>(
        opened.countries,
        nations,
        players,
        &mut drafts,
    );
    arrange_drafts(opened.ironman, &drafts[..n], players.keys, histories, names)
}

/// One history of seven words for each country of an opened record that was played, and the list of name numbers that the rows point into; returns how
/// many of each. Refused by `NotWellShaped` is a chronicle that is not well shaped or has more nations than a word can number, by `NoRoom` either slice
/// that is too short.
pub fn player_histories_of(
    opened: Record<'_>,
    nations: &[u32],
    entries: &[u32],
    histories: &mut [u32],
    names: &mut [u32],
) -> Result<HistoryCounts, Refusal>
    ensures { outcome_of (λ n. n) result (history_cells histories.new names.new)
        ≡ call_player_histories opened.entry.bytes.now nations.now entries.now (history_cells histories.old names.old) }
{
    let chronicle = open_numbered(nations, entries)?;
    if opened.countries.len() <= FEW_COUNTRIES {
        return drafted_histories::<FEW_COUNTRIES>(opened, chronicle, histories, names);
    }
    drafted_histories::<MOST_COUNTRIES>(opened, chronicle, histories, names)
}

/// One history of seven words for each country that was played, and the list of name numbers that the rows point into; returns how many of each. A bad
/// record is refused by its own refusal, all else as by `player_histories_of`.
///
/// # Source
/// `player_histories` of query.rs.
pub fn player_histories(
    s: &[u8],
    nations: &[u32],
    entries: &[u32],
    histories: &mut [u32],
    names: &mut [u32],
) -> Result<HistoryCounts, Refusal>
    ensures { outcome_of (λ n. n) result (history_cells histories.new names.new)
        ≡ call_player_histories s.now nations.now entries.now (history_cells histories.old names.old) }
{
    let opened = Record::open(s)?;
    player_histories_of(opened, nations, entries, histories, names)
}
