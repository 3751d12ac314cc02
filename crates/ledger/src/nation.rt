//! `nation_ledger` and `nation_ledger_rows`: the points of one nation.
ghost use Rattle.std.specs.Prelude.{◌≡◌, ◌≤◌, min, length, IfOk};
ghost use Rattle.format.specs.RefusalNumber.{number_of};
ghost use Rattle.rules.specs.Lent.{answer_of, outcome_of};
ghost use Rattle.rules.specs.Outcomes.{call_nation_ledger, call_nation_ledger_rows};
ghost use Rattle.record.specs.Cursors.{ledgers_left};
ghost use Rattle.rows.specs.RowAt.{nation_row_at};
ghost use Rattle.ledger.specs.Asked.{asked_ledger_number};
ghost use Rattle.ledger.specs.RowLedgers.{row_ledger};
ghost use Rattle.ledger.specs.RowOutcomes.{points_outcome};

use crate::index::{FEW_LEDGERS, LedgerIndex, NO_PLACE};
use format::{MOST_LEDGERS, NationRow, Refusal};
use record::Record;
use rows::{Chronicle, LEDGER_WIDTH, nation_count, nation_row_at};

// The nation row of a number: refused is a chronicle that is not well shaped, before a number of no nation.
fn asked_nation(nations: &[u32], entries: &[u32], nation: usize) -> Result<NationRow, Refusal>
    ensures number { number_of result ≡ asked_ledger_number nations.now entries.now nation }
    ensures row { IfOk result (λ n. n ≡ nation_row_at nations.now nation) }
{
    Chronicle::open(nations, entries)?;
    if nation_count(nations) <= nation {
        return Err(Refusal::NoSuchNation);
    }
    Ok(nation_row_at(nations, nation))
}

// The ledger of a nation's row, with an index of at most so many names.
fn ledger_indexed<const NAMES: usize>(
    opened: Record<'_>,
    entries: &[u32],
    row: NationRow,
    out: &mut [u32],
) -> Result<usize, Refusal>
    requires enough { length (ledgers_left opened.ledgers) ≤ NAMES }
    requires possible { NAMES ≤ 2000 }
    ensures { outcome_of (λ n. n) result out.new ≡ points_outcome (row_ledger opened.entry entries.now row) out.old }
{
    let mut keys = [0; NAMES];
    let mut places = [NO_PLACE; NAMES];
    let ledgers = LedgerIndex::new(opened, &mut keys, &mut places);
    let room = out.len() / LEDGER_WIDTH;
    let n = ledgers.count(entries, row, room + 1);
    if room < n {
        return Err(Refusal::NoRoom);
    }
    ledgers.write(entries, row, out);
    Ok(n)
}

/// The ledger of the nation of that number, from 0, by an opened record: a row of three words for each point, tag, year and value; returns how many.
/// Refused by `NotWellShaped` is a chronicle that is not well shaped, by `NoSuchNation` a number of no nation, by `NoRoom` a slice that is too short.
pub fn nation_ledger_of(
    opened: Record<'_>,
    nations: &[u32],
    entries: &[u32],
    nation: usize,
    out: &mut [u32],
) -> Result<usize, Refusal>
    ensures { outcome_of (λ n. n) result out.new
        ≡ call_nation_ledger opened.entry.bytes.now nations.now entries.now nation out.old }
{
    let row = asked_nation(nations, entries, nation)?;
    if opened.ledgers.len() <= FEW_LEDGERS {
        return ledger_indexed::<FEW_LEDGERS>(opened, entries, row, out);
    }
    ledger_indexed::<MOST_LEDGERS>(opened, entries, row, out)
}

/// The ledger of the nation of that number, from 0: a row of three words for each point, tag, year and value; returns how many. A bad record is refused
/// by its own refusal, all else as by `nation_ledger_of`.
///
/// # Source
/// `nation_ledger` of query.rs.
pub fn nation_ledger(
    s: &[u8],
    nations: &[u32],
    entries: &[u32],
    nation: usize,
    out: &mut [u32],
) -> Result<usize, Refusal>
    ensures { outcome_of (λ n. n) result out.new ≡ call_nation_ledger s.now nations.now entries.now nation out.old }
{
    let opened = Record::open(s)?;
    nation_ledger_of(opened, nations, entries, nation, out)
}

// How many points a nation's row has, at most so many, with an index of at most so many names.
fn rows_indexed<const NAMES: usize>(
    opened: Record<'_>,
    entries: &[u32],
    row: NationRow,
    most: usize,
) -> usize
    requires enough { length (ledgers_left opened.ledgers) ≤ NAMES }
    requires possible { NAMES ≤ 2000 }
    ensures { result ≡ min (length (row_ledger opened.entry entries.now row)) most }
{
    let mut keys = [0; NAMES];
    let mut places = [NO_PLACE; NAMES];
    LedgerIndex::new(opened, &mut keys, &mut places).count(entries, row, most)
}

/// How many rows `nation_ledger_of` would write; from `most` on it counts no further. It refuses the same, but nothing for want of room.
pub fn nation_ledger_rows_of(
    opened: Record<'_>,
    nations: &[u32],
    entries: &[u32],
    nation: usize,
    most: usize,
) -> Result<usize, Refusal>
    ensures { answer_of (λ n. n) result
        ≡ call_nation_ledger_rows opened.entry.bytes.now nations.now entries.now nation most }
{
    let row = asked_nation(nations, entries, nation)?;
    if opened.ledgers.len() <= FEW_LEDGERS {
        return Ok(rows_indexed::<FEW_LEDGERS>(opened, entries, row, most));
    }
    Ok(rows_indexed::<MOST_LEDGERS>(opened, entries, row, most))
}

/// How many rows `nation_ledger` would write; from `most` on it counts no further. It refuses the same, but nothing for want of room.
pub fn nation_ledger_rows(
    s: &[u8],
    nations: &[u32],
    entries: &[u32],
    nation: usize,
    most: usize,
) -> Result<usize, Refusal>
    ensures { answer_of (λ n. n) result ≡ call_nation_ledger_rows s.now nations.now entries.now nation most }
{
    let opened = Record::open(s)?;
    nation_ledger_rows_of(opened, nations, entries, nation, most)
}
