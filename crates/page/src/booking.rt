//! What C calls of war bookings.
ghost use Rattle.rules.specs.Outcomes.{call_war_participants};
ghost use Rattle.page.specs.Host.{Returns};

use crate::numbers::returned;

/// Writes the bookings, three words each: a war's number, the tag that joins it, and its stored tag by the lent nation words and entry
/// words. Gives the number of rows, or minus the refusal number.
pub fn war_participants(s: &[u8], nations: &[u32], entries: &[u32], out: &mut [u32]) -> i64
    ensures { Returns (call_war_participants s.now nations.now entries.now out.old) result out.new }
{
    returned(chronicle::war_participants(s, nations, entries, out))
}
