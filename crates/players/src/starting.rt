//! `starting_country`: the country that a campaign was started as, told by lent rows of histories, nations and entries.
ghost use Rattle.std.specs.Prelude.{◌≡◌};
ghost use Rattle.lists.specs.Options.{option_of};
ghost use Rattle.rules.specs.Chronicle.{is_appeared};
ghost use Rattle.rules.specs.Lent.{answer_of};
ghost use Rattle.rules.specs.HistoryRows.{history_rows_in};
ghost use Rattle.rules.specs.StartingCountry.{starting_of};
ghost use Rattle.rules.specs.PlayerOutcomes.{call_starting_country};
ghost use Rattle.players.specs.LackSteps.{appeared_in, lacking_in};

use format::{CountryTag, EntryKind, Refusal};
use rows::{
    Chronicle, Histories, NationEntries, history_count, history_row_at, is_history_shaped,
    nation_count, nation_row_at,
};

// Whether it is Appeared.
fn is_appeared(kind: EntryKind) -> bool
    ensures { result ≡ is_appeared kind }
{
    matches!(kind, EntryKind::Appeared)
}

// Whether the nation of a history's fourth word has an Appeared entry. A bare history has no entries.
fn has_appeared(chronicle: Chronicle<'_>, nation: u32) -> bool
    ensures { result ≡ appeared_in chronicle.entry.nations.now chronicle.entry.entries.now nation }
{
    let Some(nation) = nation.checked_sub(1) else {
        return false;
    };
    let row = nation_row_at(chronicle.nations, nation as usize);
    NationEntries::new(row, chronicle.entries).any(|entry| is_appeared(entry.kind))
}

// The starting country of rows that are well shaped: of a single history that lacks Appeared its initial, and where none does, of a sole one.
fn starting_in(histories: &[u32], chronicle: Chronicle<'_>) -> Option<CountryTag>
    ensures { option_of result
        ≡ starting_of (lacking_in chronicle.entry.nations.now chronicle.entry.entries.now histories.now)
        (history_rows_in histories.now) }
{
    let mut lacking = Histories::new(histories).filter(|row| !has_appeared(chronicle, row.nation));
    let Some(row) = lacking.next() else {
        let sole = history_count(histories) == 1;
        return sole.then_some(history_row_at(histories, 0).initial);
    };
    match lacking.next() {
        None => Some(row.initial),
        Some(_) => None,
    }
}

/// The country that a campaign was started as: the initial of the only history that lacks Appeared, or, where all have it, of a sole one; else none.
/// Refused by `NotWellShaped` are nations and entries, or histories beside them, that are not well shaped.
///
/// # Source
/// `starting_country` of query.rs.
pub fn starting_country(
    histories: &[u32],
    nations: &[u32],
    entries: &[u32],
) -> Result<Option<CountryTag>, Refusal>
    ensures { answer_of option_of result ≡ call_starting_country histories.now nations.now entries.now }
{
    let chronicle = Chronicle::open(nations, entries)?;
    if !is_history_shaped(histories, nation_count(nations)) {
        return Err(Refusal::NotWellShaped);
    }
    Ok(starting_in(histories, chronicle))
}
