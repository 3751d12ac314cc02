//! The tables of the countries, the chains of changes, and the switches of each country: all that nations are read from.
ghost use Rattle.std.specs.Prelude.{◌≡◌, ◌≤◌, length};
ghost use Rattle.record.specs.Cursors.{countries_left};
ghost use Rattle.nation_tables.specs.Layout.{no_change};
ghost use Rattle.nation_tables.specs.Gathering.{TablesRoom, TablesFilled, SwitchesRoom, Arranged, CountriesIn, HeldIn, GatheredIn};

use crate::countries::KeyedCountries;
use crate::fitting::FittingRecord;
use crate::holders::TabledRecord;
use crate::layout::LossGain;
use crate::{chains, countries, holders, switches};
use format::{CountryTag, Eu4Date};
use search::SortedKeys;

// How many countries there are, and keys that changes settle by: of each switch and of each country.
#[derive(Clone, Copy)]
pub(crate) struct Sizes {
    pub countries: usize,
    pub settling: usize,
}

// Fills the tables of the countries: their tags by row, the keys of their initials, and the keys that changes settle by, both in order. The words of
// initials are needed for their keys alone: of the cells that they are left in, nothing is promised.
fn fill_tables(
    all: KeyedCountries<'_>,
    tags: &mut [CountryTag],
    initial_words: &mut [u32],
    initial_keys: &mut [u64],
    settling_keys: &mut [u64],
    scratch: &mut [u64],
) -> Sizes
    requires { TablesRoom (countries_left all.countries) tags.old initial_words.old initial_keys.old settling_keys.old }
    ensures { TablesFilled (countries_left all.entry.countries) result tags.new initial_keys.new settling_keys.new }
{
    let c = all.countries.len();
    countries::fill_tags_and_initials(all.countries, tags, initial_words);
    countries::row_keys(&initial_words[..c], initial_keys, scratch);
    let m = switches::settling_keys(all, settling_keys, scratch);
    Sizes {
        countries: c,
        settling: m,
    }
}

// Turns the rows of holders of n changes into chains, with the first ones for each row, and writes the keys of switches by country and
// the targets. Until the targets stand in their cells, these serve the sort as scratch. Four arrays, lent one by one, so that the others stay.
fn arrange(
    all: KeyedCountries<'_>,
    n: usize,
    turns: &mut [LossGain],
    firsts: &mut [LossGain],
    runs: &mut [u64],
    targets: &mut [u64],
)
    requires switches_room { SwitchesRoom (countries_left all.countries) runs.old targets.old }
    requires turns_inside { n ≤ length turns.old }
    requires turns_len_bound { n ≤ no_change }
    ensures { Arranged (countries_left all.entry.countries) n turns.old turns.new firsts.new runs.new targets.new }
{
    firsts.fill(LossGain::NONE);
    chains::link(&mut turns[..n], firsts);
    switches::run_keys(all, runs, targets);
    switches::fill_targets(all.countries, targets);
}

/// How many countries, switches, slots and changes the tables have, and the start date of the record.
#[derive(Clone, Copy, Debug, PartialEq, Eq)]
pub struct TableSizes {
    pub start: Eu4Date,
    pub countries: usize,
    pub switches: usize,
    pub slots: usize,
    pub changes: usize,
}

/// The tables that nations are read from: room for any record with at most so many countries, slots, keys that changes settle by, and changes.
/// Arrays, for of slices in a struct a caller knows nothing after a call. Made where it stays and lent: by value some 1.5 MB would be copied.
#[derive(Drop)]
pub struct TableCells<
    const COUNTRIES: usize,
    const SLOTS: usize,
    const KEYS: usize,
    const CHANGES: usize,
> {
    pub tags: [CountryTag; COUNTRIES],
    pub initial_keys: [u64; COUNTRIES],
    // The keys that changes settle by; in the end those of switches by country.
    pub runs: [u64; KEYS],
    pub keys: [u64; CHANGES],
    // Scratch and cells of changes; in the end the words of the targets of switches: numbers, for no type but a number's serves all three.
    pub cells: [u64; CHANGES],
    pub slots: [u64; SLOTS],
    // The words of initials; in the end how many slots each country starts with: so they are numbers.
    pub started: [u32; COUNTRIES],
    pub turns: [LossGain; CHANGES],
    pub firsts: [LossGain; COUNTRIES],
}

// Fills the tables of slots and changes, by those of countries and switches, and returns how many changes there are. Most are lent by a whole slice: that
// tells their lengths.
fn fill_changes<
    const COUNTRIES: usize,
    const SLOTS: usize,
    const KEYS: usize,
    const CHANGES: usize,
>(
    fitting: FittingRecord<'_, COUNTRIES, SLOTS, KEYS, CHANGES>,
    sizes: Sizes,
    tables: &mut TableCells<COUNTRIES, SLOTS, KEYS, CHANGES>,
) -> usize
    requires { CountriesIn fitting.opened sizes tables.old }
    ensures kept { (tables.new.tags ≡ tables.old.tags) × (tables.new.initial_keys ≡ tables.old.initial_keys) }
    ensures held { HeldIn fitting.entry.opened.bytes.now result tables.new }
{
    let opened = fitting.opened;
    let initials = SortedKeys {
        keys: &tables.initial_keys[..sizes.countries],
    };
    let settling = SortedKeys {
        keys: &tables.runs[..sizes.settling],
    };
    let tabled = TabledRecord {
        opened,
        tags: &tables.tags[..sizes.countries],
        initials,
        settling,
    };
    holders::hold_slots(
        tabled,
        &mut tables.keys,
        &mut tables.cells[..],
        &mut tables.slots[..],
        &mut tables.started[..],
        &mut tables.turns[..],
    )
}

/// Fills the tables of a record, each at the front of its array, whatever stood there: first the tags and keys of its countries, and the keys that changes
/// settle by; then slots and changes, by those; then the chains of changes, and in place of the keys that changes settle by the switches by country.
pub fn gather_tables<
    const COUNTRIES: usize,
    const SLOTS: usize,
    const KEYS: usize,
    const CHANGES: usize,
>(
    fitting: FittingRecord<'_, COUNTRIES, SLOTS, KEYS, CHANGES>,
    tables: &mut TableCells<COUNTRIES, SLOTS, KEYS, CHANGES>,
) -> TableSizes
    ensures { GatheredIn fitting.entry.opened.bytes.now result tables.new }
{
    let opened = fitting.opened;
    let all = KeyedCountries {
        countries: opened.countries,
    };
    let sizes = fill_tables(
        all,
        &mut tables.tags,
        &mut tables.started[..],
        &mut tables.initial_keys,
        &mut tables.runs,
        &mut tables.cells[..],
    );
    let n = fill_changes(fitting, sizes, tables);
    arrange(
        all,
        n,
        &mut tables.turns[..],
        &mut tables.firsts[..],
        &mut tables.runs,
        &mut tables.cells[..],
    );
    TableSizes {
        start: opened.start,
        countries: sizes.countries,
        switches: sizes.settling - sizes.countries,
        slots: opened.provinces.len() + 1,
        changes: n,
    }
}
