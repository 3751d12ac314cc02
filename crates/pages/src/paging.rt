//! The page: its limits, the nations of the record, and their text.
ghost use Rattle.std.specs.Prelude.{◌≡◌};
ghost use Rattle.format.specs.RefusalNumber.{number_of};
ghost use Rattle.rules.specs.Lent.{outcome_of};
ghost use Rattle.rules.specs.PageOutcomes.{bytes_number, page_number, call_page};
ghost use Rattle.pages.specs.Steps.{Paged};
ghost use Rattle.pages.specs.Selecting.{Selects};

use crate::listing::list_nations;
use crate::selection::{SelectedTags, read_selection};
use crate::text::write_text;
use format::{MOST_COUNTRIES, Refusal};
use record::Record;
use rows::NATION_WIDTH;

/// The most bytes of a record, and of a selection.
pub const MOST_BYTES: usize = 65536;

// The page of an opened record for the tags of a selection: how many bytes it has, or nothing where it has no room. Refused is a record past the page's limits.
fn recorded_page(
    opened: Record<'_>,
    selection: &[u8],
    tags: SelectedTags<'_>,
    out: &mut [u8],
) -> Result<Option<usize>, Refusal>
    requires few { bytes_number opened.bytes.now selection.now ≡ 0 }
    requires read { Selects selection.now tags }
    ensures { Paged opened.entry.bytes.now selection.now out.old result out.new }
{
    // No heap: arrays for the most nations, of which the fronts are used. Each country has one at most.
    let mut nations = [0u32; NATION_WIDTH * MOST_COUNTRIES];
    let mut living = [false; MOST_COUNTRIES];
    let Some(n) = list_nations(opened, &mut nations, &mut living) else {
        return Err(Refusal::NoRoom);
    };
    Ok(write_text(&nations[..n], &living, tags, out))
}

// The page of a record for a selection: how many bytes it has, or nothing where it has no room; refused by what refuses the page, room aside.
pub(crate) fn checked_page(
    s: &[u8],
    selection: &[u8],
    out: &mut [u8],
) -> Result<Option<usize>, Refusal>
    ensures { Paged s.now selection.now out.old result out.new }
{
    if (MOST_BYTES < s.len()) | (MOST_BYTES < selection.len()) {
        return Err(Refusal::NoRoom);
    }
    let opened = Record::open(s)?;
    let tags = read_selection(selection).ok_or(Refusal::BadQuestion)?;
    recorded_page(opened, selection, tags, out)
}

/// The page of a record for a selection, which is tags with a line feed behind each: how many tags were read, then a line for each; returns how many bytes
/// that is. Refused by `NoRoom` are more than 65,536 bytes of either; then a bad record, by its number; by `BadQuestion` a selection that is anything else; and
/// by `NoRoom` more than 4,000 changes or 5,000 entries, or a slice that is too short.
pub fn write_page(s: &[u8], selection: &[u8], out: &mut [u8]) -> Result<usize, Refusal>
    ensures { outcome_of (λ n. n) result out.new ≡ call_page s.now selection.now out.old }
{
    checked_page(s, selection, out)?.ok_or(Refusal::NoRoom)
}
