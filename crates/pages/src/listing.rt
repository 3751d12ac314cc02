//! The nations of a page, with their status: what is worked out of a record, each slice of its answer at hand.
ghost use Rattle.std.specs.Prelude.{◌≡◌, ◌*◌, length};
ghost use Rattle.rules.specs.NationRows.{nation_width};
ghost use Rattle.pages.specs.Listing.{PageNationsTold};

use crate::living::fill_living;
use format::MOST_COUNTRIES;
use nation_tables::MOST_SLOTS;
use nations::nation_events_of;
use record::Record;
use rows::{CHANGE_WIDTH, ENTRY_WIDTH, NATION_WIDTH};

// The most entries of a page.
const MOST_PAGE_ENTRIES: usize = 5000;

// The most changes of a page.
const MOST_PAGE_CHANGES: usize = 4000;

// Lists the nations of an opened record, marks those that are living, and gives how many words the rows have; nothing where the record is past
// the page's limits. Nations are given room for just as many entries and changes as a page may have: so they are refused if there are more.
pub(crate) fn list_nations(
    opened: Record<'_>,
    nations: &mut [u32],
    living: &mut [bool],
) -> Option<usize>
    requires { (length nations.old ≡ nation_width * MOST_COUNTRIES) × (length living.old ≡ MOST_COUNTRIES) }
    ensures { PageNationsTold opened.entry.bytes.now result nations.new living.new }
{
    // No heap: arrays as long as a page's limits, of which the fronts are used.
    let mut entries = [0u32; ENTRY_WIDTH * MOST_PAGE_ENTRIES];
    let mut holders = [0u32; MOST_SLOTS];
    let mut held = [0u32; MOST_COUNTRIES];
    let mut changes = [0u32; CHANGE_WIDTH * MOST_PAGE_CHANGES];
    let listed = nation_events_of(
        opened,
        nations,
        &mut entries,
        &mut holders,
        &mut held,
        &mut changes,
    );
    // As short as `.ok()?`: the refusal is not handed on, for it can only be want of room.
    let Ok(counts) = listed else { return None };
    let n = NATION_WIDTH * counts.nations;
    let m = ENTRY_WIDTH * counts.entries;
    fill_living(&nations[..n], &entries[..m], living);
    Some(n)
}
