//! What C calls of the ledger. A nation is asked for by its number, from 0, among the lent nation words.
ghost use Rattle.std.specs.Prelude.{◌≡◌, min};
ghost use Rattle.rules.specs.Outcomes.{call_nation_ledger, call_nation_ledger_rows, call_nation_ledgers};
ghost use Rattle.ledger.specs.LentSlices.{ledger_cells};
ghost use Rattle.page.specs.Host.{returned, Returns, most_returned};

use crate::numbers::{can_return, returned};

/// Writes a nation's ledger, three words each: tag, year and value in two's complement. Gives the number of rows, or minus the refusal
/// number: 13 for a number that is no nation's.
pub fn nation_ledger(
    s: &[u8],
    nations: &[u32],
    entries: &[u32],
    nation: usize,
    out: &mut [u32],
) -> i64
    ensures { Returns (call_nation_ledger s.now nations.now entries.now nation out.old) result out.new }
{
    returned(chronicle::nation_ledger(s, nations, entries, nation, out))
}

/// How many rows `nation_ledger` has to write, or `most` if there are more; else minus the refusal number. A `most` above
/// 9223372036854775807 counts as that, so that the number can be returned.
pub fn nation_ledger_rows(
    s: &[u8],
    nations: &[u32],
    entries: &[u32],
    nation: usize,
    most: usize,
) -> i64
    ensures { result ≡ returned (call_nation_ledger_rows s.now nations.now entries.now nation (min most most_returned)) }
{
    let most = can_return(most);
    returned(chronicle::nation_ledger_rows(s, nations, entries, nation, most))
}

/// Writes the ledgers of all nations, one behind the other, and into `counts` the number of rows of each. Gives the number of all rows, or
/// minus the refusal number: 10 where either slice is too short.
pub fn nation_ledgers(
    s: &[u8],
    nations: &[u32],
    entries: &[u32],
    out: &mut [u32],
    counts: &mut [u64],
) -> i64
    ensures { Returns (call_nation_ledgers s.now nations.now entries.now (ledger_cells out.old counts.old)) result (ledger_cells out.new counts.new) }
{
    returned(chronicle::nation_ledgers(s, nations, entries, out, counts))
}
