//! The rows of the listed nations and of their entries, written once there is room for every one of them.
ghost use Rattle.std.specs.Prelude.{◌≡◌, ◌++◌, ◌+◌, ◌*◌, ◌≤◌, ◌<◌, length, drop};
ghost use Rattle.rules.specs.NationRows.{entry_width};
ghost use Rattle.nation_tables.specs.Layout.{word_span};
ghost use Rattle.nations.specs.CountryEntries.{entries_left};
ghost use Rattle.nations.specs.ListedNations.{listed_in, nations_in};
ghost use Rattle.nations.specs.WrittenNations.{EntriesWritten, NationRoom, NationPut, nations_for, placed_told};

use crate::country_entries::Entries;
use crate::listed_nations::ListedNation;
use crate::tables::NationTables;
use format::NationRow;
use rows::{ENTRY_WIDTH, NATION_WIDTH, ToRow};

// How many nations are listed, and how many entries they have.
#[derive(Clone, Copy, Debug, PartialEq, Eq)]
pub(crate) struct Listed {
    pub nations: usize,
    pub entries: usize,
}

// Writes a row at the front of cells.
fn write_row<const WIDTH: usize>(row: [u32; WIDTH], out: &mut [u32])
    requires { WIDTH ≤ length out.old }
    ensures { out.new ≡ row.entry ++ drop WIDTH out.old }
{
    out[..WIDTH].copy_from_slice(&row);
}

// Writes the rows of entries, one behind the other, and returns how many there are.
fn write_entries(entries: Entries, out: &mut [u32]) -> usize
    requires { entry_width * length (entries_left entries) ≤ length out.old }
    ensures { EntriesWritten (entries_left entries.entry) result out.old out.new }
{
    let mut k = 0;
    for entry in entries {
        write_row(entry.to_row(), &mut out[ENTRY_WIDTH * k..]);
        k += 1;
    }
    k
}

// Writes the row of a nation, in which `first` is the number of its first entry, and the rows of its entries. Returns how many entries it has.
fn write_nation(
    nation: ListedNation,
    first: usize,
    nations: &mut [u32],
    entries: &mut [u32],
) -> usize
    requires few { first + length (entries_left nation.entries) < word_span }
    requires room { NationRoom (listed_in nation) nations.old entries.old }
    ensures { NationPut (listed_in nation.entry) first result nations.old nations.new entries.old entries.new }
{
    let count = write_entries(nation.entries, entries);
    let row = NationRow {
        initial: nation.initial,
        latest: nation.latest,
        stored: nation.stored,
        first: first as u32,
        count: count as u32,
    };
    write_row(row.to_row(), nations);
    count
}

impl NationTables<'_> {
    ghost use Rattle.nations.specs.WrittenNations.{listed_of, NationsRoom, NationsWritten};

    // Counts the listed nations and their entries.
    fn count_nations(&self) -> Listed
        ensures { result ≡ listed_of (nations_in self.now) }
    {
        let mut nations = 0;
        let mut entries = 0;
        for nation in self.nations() {
            nations += 1;
            entries += nation.entries.len();
        }
        Listed { nations, entries }
    }

    // Writes the rows of the listed nations, and of each nation's entries behind those of the nations before it.
    fn write_nations(&self, nations: &mut [u32], entries: &mut [u32])
        requires { NationsRoom (nations_in self.now) nations.old entries.old }
        ensures { NationsWritten (nations_in self.now) nations.old nations.new entries.old entries.new }
    {
        let mut first = 0;
        for (n, nation) in self.nations().enumerate() {
            let at = NATION_WIDTH * n;
            let behind = ENTRY_WIDTH * first;
            let count = write_nation(nation, first, &mut nations[at..], &mut entries[behind..]);
            first += count;
        }
    }
}

// Whether slices of these lengths have room for so many nations and entries. By division: of any numbers the products may not fit.
fn nations_fit(listed: Listed, nations: usize, entries: usize) -> bool
    ensures { result ≡ nations_for listed nations entries }
{
    (listed.nations <= nations / NATION_WIDTH) & (listed.entries <= entries / ENTRY_WIDTH)
}

// Writes the rows of the nations that the tables tell, and of their entries, and counts them; none where either slice is too short, and then both are left
// as they were.
pub(crate) fn place_nations(
    tables: &NationTables,
    nations: &mut [u32],
    entries: &mut [u32],
) -> Option<Listed>
    ensures { placed_told (nations_in tables.now) result nations.old nations.new entries.old entries.new }
{
    let listed = tables.count_nations();
    if !nations_fit(listed, nations.len(), entries.len()) {
        return None;
    }
    tables.write_nations(nations, entries);
    Some(listed)
}
