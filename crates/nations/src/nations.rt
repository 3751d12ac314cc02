//! Nations: who lived, under which tags.
ghost use Rattle.std.specs.Prelude.{◌≡◌, ◌≤◌};
ghost use Rattle.rules.specs.Outcomes.{call_nation_events};
ghost use Rattle.rules.specs.Lent.{outcome_of};
ghost use Rattle.nations.specs.LentCells.{nation_cells};
ghost use Rattle.owner_changes.specs.ChangeSteps.{most_changes};
ghost use Rattle.nation_tables.specs.Layout.{most_countries, most_slots, most_settling};
ghost use Rattle.nations.specs.NationSteps.{counts_from};

use crate::gathered_nations::tell_nations;
use crate::slots_and_changes::{RestCells, write_rest};
use crate::written_nations::Listed;
use format::{CountryTag, MOST_COUNTRIES, NationCounts, Refusal};
use nation_tables::{FittingRecord, LossGain, MOST_SETTLING, MOST_SLOTS, TableCells, TableSizes};
use owner_changes::MOST_CHANGES;
use record::{ROW_BYTES, Record};

// Records of no more bytes are small, or of middle size: their tables take less time to clear.
const SMALL_RECORD: usize = 2048;

const MIDDLE_RECORD: usize = 16384;

// Room for the rows of one kind in a small record, and in one of middle size.
const FEW_ROWS: usize = SMALL_RECORD / ROW_BYTES;

const SOME_ROWS: usize = MIDDLE_RECORD / ROW_BYTES;

// How many rows there are, by the sizes of the tables and what is listed.
fn counts_from(sizes: TableSizes, listed: Listed) -> NationCounts
    ensures { result ≡ counts_from sizes listed }
{
    NationCounts {
        nations: listed.nations,
        entries: listed.entries,
        slots: sizes.slots,
        countries: sizes.countries,
        changes: sizes.changes,
    }
}

// The answer, worked out in arrays on the stack, as there is no heap: with cells for so many countries, slots, keys that changes settle by, and changes.
// What the cells hold at first decides nothing; tags have the word 0, as numbers have, so that one fill clears them all.
fn answer_sized<
    const COUNTRIES: usize,
    const SLOTS: usize,
    const KEYS: usize,
    const CHANGES: usize,
>(
    fitting: FittingRecord<'_, COUNTRIES, SLOTS, KEYS, CHANGES>,
    nations: &mut [u32],
    entries: &mut [u32],
    holders: &mut [u32],
    held: &mut [u32],
    changes: &mut [u32],
) -> Result<NationCounts, Refusal>
    requires { (COUNTRIES ≤ most_countries) × (SLOTS ≤ most_slots) × (KEYS ≤ most_settling) × (CHANGES ≤ most_changes) }
    ensures { outcome_of (λ n. n) result (nation_cells nations.new entries.new holders.new held.new changes.new) ≡ call_nation_events fitting.entry.opened.bytes.now (nation_cells nations.old entries.old holders.old held.old changes.old) }
{
    let mut tables = TableCells::<COUNTRIES, SLOTS, KEYS, CHANGES> {
        tags: [CountryTag::from_word_unchecked(0); COUNTRIES],
        initial_keys: [0; COUNTRIES],
        runs: [0; KEYS],
        keys: [0; CHANGES],
        cells: [0; CHANGES],
        slots: [0; SLOTS],
        started: [0; COUNTRIES],
        turns: [LossGain::NONE; CHANGES],
        firsts: [LossGain::NONE; COUNTRIES],
    };
    let room = RestCells {
        holders: holders.len(),
        held: held.len(),
        changes: changes.len(),
    };
    let Some(told) = tell_nations(fitting, &mut tables, nations, entries, room) else {
        return Err(Refusal::NoRoom);
    };
    let sizes = told.sizes;
    write_rest(fitting.opened, sizes, &mut tables, holders, held, changes);
    let counts = counts_from(sizes, told.listed);
    Ok(counts)
}

/// Writes the nations of an opened record, five slices of cells: a row of five words for each listed nation, and one of three for each of their entries; the
/// tag's word of the holder of each slot after the last change, 0 for nobody; how many slots each country holds then; and a row of four words for each owner
/// change. Answers how many rows, or cells, there are of each. Refused by `NoRoom` is a slice that is too short; then all are left as they were.
pub fn nation_events_of(
    opened: Record<'_>,
    nations: &mut [u32],
    entries: &mut [u32],
    holders: &mut [u32],
    held: &mut [u32],
    changes: &mut [u32],
) -> Result<NationCounts, Refusal>
    ensures { outcome_of (λ n. n) result (nation_cells nations.new entries.new holders.new held.new changes.new) ≡ call_nation_events opened.entry.bytes.now (nation_cells nations.old entries.old holders.old held.old changes.old) }
{
    let bytes = opened.bytes.len();
    if bytes <= SMALL_RECORD {
        let fitting = FittingRecord::<FEW_ROWS, FEW_ROWS, FEW_ROWS, FEW_ROWS> { opened };
        return answer_sized(fitting, nations, entries, holders, held, changes);
    }
    if bytes <= MIDDLE_RECORD {
        let fitting = FittingRecord::<MOST_COUNTRIES, SOME_ROWS, SOME_ROWS, SOME_ROWS> { opened };
        return answer_sized(fitting, nations, entries, holders, held, changes);
    }
    let fitting = FittingRecord::<MOST_COUNTRIES, MOST_SLOTS, MOST_SETTLING, MOST_CHANGES> {
        opened,
    };
    answer_sized(fitting, nations, entries, holders, held, changes)
}

/// Writes the nations of the record of these bytes, as `nation_events_of` does. A bad record is refused by its own refusal, all else as there.
///
/// # Source
/// `nation_events` of query.rs.
pub fn nation_events(
    s: &[u8],
    nations: &mut [u32],
    entries: &mut [u32],
    holders: &mut [u32],
    held: &mut [u32],
    changes: &mut [u32],
) -> Result<NationCounts, Refusal>
    ensures { outcome_of (λ n. n) result (nation_cells nations.new entries.new holders.new held.new changes.new) ≡ call_nation_events s.now (nation_cells nations.old entries.old holders.old held.old changes.old) }
{
    let opened = Record::open(s)?;
    nation_events_of(opened, nations, entries, holders, held, changes)
}
