//! The rest of the answer, written once there is room for all: who holds each slot, how many slots each country holds, and the changes.
ghost use Rattle.std.specs.Prelude.{◌≡◌};
ghost use Rattle.nations.specs.NationSteps.{rest_for, RestReadyIn, RestRoom, RestWritten};

use nation_tables::{TableCells, TableSizes};
use record::Record;
use rows::CHANGE_WIDTH;

// How many cells the slices for the rest have: for the holder of each slot, for the slots held by each country, and for the changes.
#[derive(Clone, Copy)]
pub(crate) struct RestCells {
    pub holders: usize,
    pub held: usize,
    pub changes: usize,
}

// Whether so many cells are room for the slots, the countries and the changes. By division: of any number of changes the product may not fit.
pub(crate) fn rest_fits(sizes: TableSizes, room: RestCells) -> bool
    ensures { result ≡ rest_for sizes room.holders room.held room.changes }
{
    (sizes.slots <= room.holders)
        & (sizes.countries <= room.held)
        & (sizes.changes <= room.changes / CHANGE_WIDTH)
}

// Writes the holder of each slot, the slots held by each country, and the changes. The cells serve for the tags of the changes.
pub(crate) fn write_rest<
    const COUNTRIES: usize,
    const SLOTS: usize,
    const KEYS: usize,
    const CHANGES: usize,
>(
    opened: Record<'_>,
    sizes: TableSizes,
    tables: &mut TableCells<COUNTRIES, SLOTS, KEYS, CHANGES>,
    holders: &mut [u32],
    held: &mut [u32],
    changes: &mut [u32],
)
    requires ready { RestReadyIn opened.bytes.now sizes tables.old }
    requires room { RestRoom sizes tables.old.slots holders.old held.old changes.old }
    ensures { RestWritten opened.entry.bytes.now sizes tables.old.slots holders.old holders.new held.old held.new changes.old changes.new }
{
    let p = sizes.slots;
    let n = sizes.changes;
    nation_tables::write_slots(&tables.slots[..p], sizes.countries, holders, held);
    // Whole slices first: these tell their lengths, and of a field that is an array no `&mut` part is lent.
    let keys = &tables.keys[..];
    let cells = &mut tables.cells[..];
    owner_changes::write_sorted(opened.provinces, &keys[..n], &mut cells[..n], changes);
}
