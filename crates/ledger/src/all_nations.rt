//! `nation_ledgers`: the points of all nations.
ghost use Rattle.std.specs.Prelude.{◌≡◌, ◌≤◌, length};
ghost use Rattle.rules.specs.Lent.{outcome_of};
ghost use Rattle.rules.specs.Outcomes.{call_nation_ledgers};
ghost use Rattle.record.specs.Cursors.{ledgers_left};
ghost use Rattle.ledger.specs.LentSlices.{ledger_cells};
ghost use Rattle.ledger.specs.RowOutcomes.{all_outcome};

use crate::index::{FEW_LEDGERS, LedgerIndex, NO_PLACE};
use format::{MOST_LEDGERS, Refusal};
use record::Record;
use rows::{Chronicle, LEDGER_WIDTH, nation_count};

// The ledgers of all nations, with an index of at most so many names.
fn ledgers_indexed<const NAMES: usize>(
    opened: Record<'_>,
    chronicle: Chronicle<'_>,
    out: &mut [u32],
    counts: &mut [u64],
) -> Result<usize, Refusal>
    requires enough { length (ledgers_left opened.ledgers) ≤ NAMES }
    requires possible { NAMES ≤ 2000 }
    ensures { outcome_of (λ n. n) result (ledger_cells out.new counts.new)
        ≡ all_outcome opened.entry chronicle.entry.nations.now chronicle.entry.entries.now
        (ledger_cells out.old counts.old) }
{
    if counts.len() < nation_count(chronicle.nations) {
        return Err(Refusal::NoRoom);
    }
    let mut keys = [0; NAMES];
    let mut places = [NO_PLACE; NAMES];
    let ledgers = LedgerIndex::new(opened, &mut keys, &mut places);
    let room = out.len() / LEDGER_WIDTH;
    let n = ledgers.count_all(chronicle, room + 1);
    if room < n {
        return Err(Refusal::NoRoom);
    }
    ledgers.write_all(chronicle, out, counts);
    Ok(n)
}

/// The ledgers of all nations, by an opened record, one behind the other: rows as `nation_ledger` writes them, and for each nation the number of its
/// points; returns how many points there are. Refused by `NotWellShaped` is a chronicle that is not well shaped, by `NoRoom` a slice that is too short.
pub fn nation_ledgers_of(
    opened: Record<'_>,
    nations: &[u32],
    entries: &[u32],
    out: &mut [u32],
    counts: &mut [u64],
) -> Result<usize, Refusal>
    ensures { outcome_of (λ n. n) result (ledger_cells out.new counts.new)
        ≡ call_nation_ledgers opened.entry.bytes.now nations.now entries.now (ledger_cells out.old counts.old) }
{
    let chronicle = Chronicle::open(nations, entries)?;
    if opened.ledgers.len() <= FEW_LEDGERS {
        return ledgers_indexed::<FEW_LEDGERS>(opened, chronicle, out, counts);
    }
    ledgers_indexed::<MOST_LEDGERS>(opened, chronicle, out, counts)
}

/// The ledgers of all nations, one behind the other, rows as `nation_ledger` writes them, and for each nation the number of its points; returns how many
/// points there are. A bad record is refused by its own refusal, all else as by `nation_ledgers_of`.
pub fn nation_ledgers(
    s: &[u8],
    nations: &[u32],
    entries: &[u32],
    out: &mut [u32],
    counts: &mut [u64],
) -> Result<usize, Refusal>
    ensures { outcome_of (λ n. n) result (ledger_cells out.new counts.new)
        ≡ call_nation_ledgers s.now nations.now entries.now (ledger_cells out.old counts.old) }
{
    let opened = Record::open(s)?;
    nation_ledgers_of(opened, nations, entries, out, counts)
}
