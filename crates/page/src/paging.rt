//! What C calls of the page.
ghost use Rattle.rules.specs.PageOutcomes.{call_page};
ghost use Rattle.page.specs.Host.{Returns};

use crate::numbers::returned;

/// Writes the page of a record for a selection of stored tags, each followed by a line feed. Gives the number of bytes, or minus the
/// refusal number.
pub fn page(s: &[u8], selection: &[u8], out: &mut [u8]) -> i64
    ensures { Returns (call_page s.now selection.now out.old) result out.new }
{
    returned(pages::write_page(s, selection, out))
}
