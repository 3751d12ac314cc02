//! Who holds each slot, change by change, by the rows of countries.
ghost use Rattle.std.specs.Prelude.{◌≡◌, map, ◌+◌, ◌*◌, ◌≤◌, length, get_or, unwrap_or};
ghost use Rattle.record.specs.Opened.{campaign_in};
ghost use Rattle.owner_changes.specs.ChangeSteps.{entered};
ghost use Rattle.nation_tables.specs.Layout.{short_span, cell_rows, nobody_cell};
ghost use Rattle.nation_tables.specs.Holders.{CountryTables, rows_in_cells, row_cell, slot_counts, holder_cells};
ghost use Rattle.nation_tables.specs.Holders.{StartRoom, StepsRoom, HoldingRoom, Replaced, Passed, Began, Stepped, Held, cell_word, SlotsWritten};
ghost use Rattle.rules.specs.Lent.{written};

use crate::layout::{CELL_ROWS, LossGain, MOST_SLOTS, NO_ROW, NOBODY, WORD_SPAN};
use crate::settling::{HINTS_FROM, STARTS};
use crate::{lookup, settling, starting};
use format::{CountryTag, ProvinceId};
use owner_changes::{ChangeKey, Changes};
use record::Record;
use search::SortedKeys;
use sorting::spread_sort;
use std::mem;

/// An opened record with the tables of its countries: their tags by row, the keys of their initials, and the keys that changes settle by.
#[derive(Clone, Copy)]
pub(crate) struct TabledRecord<'a, 't> {
    pub opened: Record<'a>,
    pub tags: &'t [CountryTag],
    pub initials: SortedKeys<'t>,
    pub settling: SortedKeys<'t>,
    pub ghost tabled: { CountryTables (campaign_in opened).countries tags.now initials.keys.now settling.keys.now },
}

// The tag of a row's country, or the given tag where there is none.
fn tag_or_other(tags: &[CountryTag], row: u16, other: CountryTag) -> CountryTag
    ensures { result ≡ get_or tags.now row other }
{
    tags.get(usize::from(row)).copied().unwrap_or(other)
}

// The cell of a holder: that of a row's country, or with the given tag where there is none.
fn cell_of(tags: &[CountryTag], row: u16, other: CountryTag) -> u64
    ensures { result ≡ (get_or tags.now row other).0 * cell_rows + row }
{
    u64::from(u32::from(tag_or_other(tags, row, other))) * CELL_ROWS + u64::from(row)
}

// Turns the row of each slot's holder into the holder's cell. Where there is no row the word is 0, which is not tested.
fn start_cells(tags: &[CountryTag], slots: &mut [u64])
    ensures { slots.new ≡ map (row_cell tags.now) (rows_in_cells slots.old) }
{
    for slot in slots.iter_mut() {
        *slot = cell_of(
            tags,
            (*slot % CELL_ROWS) as u16,
            CountryTag::from_word_unchecked(0),
        );
    }
}

// Writes how many slots each country row has, by the cells of the slots. A number that is no row's counts nowhere. By index, and so below: no cell is known
// behind `get_mut`.
fn count_slots(slots: &[u64], counts: &mut [u32])
    requires { length slots.now ≤ short_span }
    ensures { counts.new ≡ slot_counts (rows_in_cells slots.now) (length counts.old) }
{
    counts.fill(0);
    for slot in slots {
        let row = (*slot % CELL_ROWS) as usize;
        if row < counts.len() {
            counts[row] += 1;
        }
    }
}

// Writes a cell for each change in entry order: the word of the tag that it settles to, and below it the row of that country. By index: no cell is known
// behind a `zip` with `iter_mut`.
fn fill_holders(tabled: TabledRecord<'_, '_>, starts: &[u16], cells: &mut [u64])
    requires { length cells.old ≡ length (entered tabled.opened.bytes.now) }
    ensures { cells.new ≡ holder_cells tabled.entry.opened.bytes.now }
{
    let changes = Changes::new(tabled.opened.provinces);
    for (n, x) in changes.enumerate() {
        let row = settling::settling_row(tabled.settling, starts, x.to, x.date);
        cells[n] = cell_of(tabled.tags, row.unwrap_or(NO_ROW), x.to);
    }
}

// Writes the cell of each change. Few changes go without hints: their searches take less time than a table that is cleared and filled.
fn settle_changes(tabled: TabledRecord<'_, '_>, cells: &mut [u64])
    requires { length cells.old ≡ length (entered tabled.opened.bytes.now) }
    ensures { cells.new ≡ holder_cells tabled.entry.opened.bytes.now }
{
    if cells.len() < HINTS_FROM {
        return fill_holders(tabled, &[], cells);
    }
    let mut starts = [0u16; STARTS];
    settling::note_starts(tabled.settling.keys, &mut starts);
    fill_holders(tabled, &starts, cells);
}

// Puts a cell into a slot, and returns the one that was there, if there is such a slot.
fn replace(slots: &mut [u64], id: ProvinceId, cell: u64) -> Option<u64>
    ensures { Replaced slots.old id.0 cell (unwrap_or result nobody_cell) slots.new }
{
    let slot = u32::from(id) as usize;
    if slots.len() <= slot {
        return None;
    }
    Some(mem::replace(&mut slots[slot], cell))
}

// Goes through the sorted changes: notes the row of the slot's holder before each change and after it, and keeps the cell of each slot.
fn pass(keys: &[u64], cells: &[u64], slots: &mut [u64], turns: &mut [LossGain])
    requires { length turns.old ≡ length keys.now }
    ensures { Passed keys.now cells.now slots.old slots.new turns.new }
{
    for (k, key) in keys.iter().enumerate() {
        let key = ChangeKey(*key);
        let cell = lookup::cell_at(cells, key.number());
        let old = replace(slots, key.id(), cell).unwrap_or(NOBODY);
        turns[k] = LossGain {
            loss: (old % CELL_ROWS) as u16,
            gain: (cell % CELL_ROWS) as u16,
        };
    }
}

// Writes the cell of each slot's holder at the start, and how many slots each country holds then.
fn start_slots(tabled: TabledRecord<'_, '_>, slots: &mut [u64], started: &mut [u32])
    requires { StartRoom (campaign_in tabled.opened) slots.old started.old }
    ensures { Began (campaign_in tabled.entry.opened) slots.new started.new }
{
    starting::start_rows(tabled.opened.provinces, tabled.initials, slots);
    start_cells(tabled.tags, slots);
    count_slots(slots, started);
}

// Writes the sorted keys of all changes, and the cell of each change at its number. Returns how many there are. Until then the cells serve
// the sort as scratch.
fn sort_steps(tabled: TabledRecord<'_, '_>, keys: &mut [u64], cells: &mut [u64]) -> usize
    requires { StepsRoom tabled.opened.bytes.now keys.old cells.old }
    ensures { Stepped tabled.entry.opened.bytes.now result keys.new cells.new }
{
    let n = owner_changes::fill_keys(Changes::new(tabled.opened.provinces), keys);
    spread_sort(&mut keys[..n], cells);
    settle_changes(tabled, &mut cells[..n]);
    n
}

// From the start holders through all changes: their sorted keys, the row of the old and of the new holder of each, the cell of each slot
// in the end, and how many slots each country holds at the start, these two at the front of their cells. Returns how many changes there are. The slices
// are lent whole: of an array in a struct a caller could lend no part to be written.
pub(crate) fn hold_slots(
    tabled: TabledRecord<'_, '_>,
    keys: &mut [u64],
    cells: &mut [u64],
    slots: &mut [u64],
    started: &mut [u32],
    turns: &mut [LossGain],
) -> usize
    requires { HoldingRoom tabled.opened.bytes.now keys.old cells.old slots.old started.old turns.old }
    ensures { Held tabled.entry.opened.bytes.now result keys.new slots.new started.new turns.new }
{
    let p = tabled.opened.provinces.len() + 1;
    let c = tabled.tags.len();
    start_slots(tabled, &mut slots[..p], &mut started[..c]);
    let n = sort_steps(tabled, keys, cells);
    pass(&keys[..n], &cells[..n], &mut slots[..p], &mut turns[..n]);
    n
}

// Writes the word of each slot's holder, 0 for nobody, into the front of a slice.
fn put_holders(slots: &[u64], out: &mut [u32])
    requires { length slots.now ≤ length out.old }
    ensures { out.new ≡ written (map cell_word slots.now) out.old }
{
    for (i, slot) in slots.iter().enumerate() {
        out[i] = (*slot / CELL_ROWS % WORD_SPAN) as u32;
    }
}

/// Writes the word of each slot's holder, 0 for nobody, and how many slots each of c countries holds, into the fronts of two slices: as many as find room, and
/// no more slots than a record has.
pub fn write_slots(slots: &[u64], c: usize, holders: &mut [u32], held: &mut [u32])
    ensures { SlotsWritten slots.now c holders.old holders.new held.old held.new }
{
    let p = MOST_SLOTS.min(slots.len());
    let slots = &slots[..p];
    let n = holders.len().min(p);
    put_holders(&slots[..n], holders);
    let rows = c.min(held.len());
    count_slots(slots, &mut held[..rows]);
}
