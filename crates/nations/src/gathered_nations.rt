//! The nations of a record, told from tables that are gathered for it.
ghost use Rattle.nations.specs.Tables.{Readable};
ghost use Rattle.nations.specs.NationSteps.{FrontsInside, fronts_in, fronts_nations, nations_told_in};
ghost use Rattle.nations.specs.WrittenNations.{placed_told};

use crate::slots_and_changes::RestCells;
use crate::tables::NationTables;
use crate::written_nations::Listed;
use crate::{slots_and_changes, written_nations};
use nation_tables::{FittingRecord, TableCells, TableSizes};
use search::SortedKeys;

// The sizes of the tables, and what is listed.
#[derive(Clone, Copy)]
pub(crate) struct NationsTold {
    pub sizes: TableSizes,
    pub listed: Listed,
}

// Writes the nations that the fronts of the tables tell, and their entries, if both slices have room.
fn place_fronts<
    const COUNTRIES: usize,
    const SLOTS: usize,
    const KEYS: usize,
    const CHANGES: usize,
>(
    sizes: TableSizes,
    tables: &TableCells<COUNTRIES, SLOTS, KEYS, CHANGES>,
    nations: &mut [u32],
    entries: &mut [u32],
) -> Option<Listed>
    requires inside { FrontsInside sizes COUNTRIES KEYS CHANGES }
    requires readable { Readable (fronts_in sizes tables.now) }
    ensures { placed_told (fronts_nations sizes tables.now) result nations.old nations.new entries.old entries.new }
{
    let c = sizes.countries;
    let m = sizes.switches;
    let n = sizes.changes;
    let fronts = NationTables {
        tags: &tables.tags[..c],
        initial_keys: SortedKeys {
            keys: &tables.initial_keys[..c],
        },
        runs: SortedKeys {
            keys: &tables.runs[..m],
        },
        targets: &tables.cells[..m],
        firsts: &tables.firsts,
        started: &tables.started[..c],
        keys: &tables.keys[..n],
        turns: &tables.turns[..n],
        start: sizes.start,
    };
    written_nations::place_nations(&fronts, nations, entries)
}

// Gathers the tables of a record, and writes its nations and their entries, if these have room and the slices for the rest have too: of the tables the slots,
// keys and cells are left for that. None where a slice is too short, and nothing is written.
pub(crate) fn tell_nations<
    const COUNTRIES: usize,
    const SLOTS: usize,
    const KEYS: usize,
    const CHANGES: usize,
>(
    fitting: FittingRecord<'_, COUNTRIES, SLOTS, KEYS, CHANGES>,
    tables: &mut TableCells<COUNTRIES, SLOTS, KEYS, CHANGES>,
    nations: &mut [u32],
    entries: &mut [u32],
    room: RestCells,
) -> Option<NationsTold>
    ensures { nations_told_in fitting.entry.opened.bytes.now room result tables.new nations.old nations.new entries.old entries.new }
{
    let sizes = nation_tables::gather_tables(fitting, tables);
    if !slots_and_changes::rest_fits(sizes, room) {
        return None;
    }
    let listed = place_fronts(sizes, tables, nations, entries)?;
    Some(NationsTold { sizes, listed })
}
