//! The keys of all switches, by either order, and the targets of the switches.
ghost use Rattle.std.specs.Prelude.{◌≡◌, ℕ, ◌+◌, ◌≤◌, ◌<◌, length};
ghost use Rattle.record.specs.Cursors.{country_of, countries_left, switches_left};
ghost use Rattle.rules.specs.Lent.{written};
ghost use Rattle.rules.specs.Nations.{initial_of};
ghost use Rattle.nation_tables.specs.Layout.{key_rows};
ghost use Rattle.nation_tables.specs.Countries.{settling_keys_from, settling_keys, Filled, FilledFrom};
ghost use Rattle.nation_tables.specs.Switches.{PlacedSwitch, placed, own_keys_from, OwnAsked, from_key, FromFits, place_key, NumberFits};
ghost use Rattle.nation_tables.specs.Switches.{runs_from, run_keys, own_targets, target_words};

use crate::countries::KeyedCountries;
use crate::keys;
use crate::layout::LAST_DATE;
use format::{CountryTag, Eu4Date, Switch};
use record::{Countries, CountryRow, Switches};

// What the keys of switches are in order by.
trait SwitchOrder {
    ghost key_of: { PlacedSwitch → ℕ };

    ghost fits: { PlacedSwitch → Type 0 };

    // The key of the record's switch of a number, made by the country in a row.
    fn key(row: u64, number: usize, x: Switch) -> u64
        requires { (row < key_rows) × fits (placed row number x) }
        ensures { result ≡ key_of (placed row number x) };
}

// By the tag that was left, and the date.
struct ByFrom;

impl SwitchOrder for ByFrom {
    ghost key_of = { from_key };

    ghost fits = { FromFits };

    fn key(row: u64, _number: usize, x: Switch) -> u64 {
        keys::settling_key(x.from, x.date, row)
    }
}

// By the row of the country, and the date.
struct ByRow;

impl SwitchOrder for ByRow {
    ghost key_of = { place_key };

    ghost fits = { NumberFits };

    fn key(row: u64, number: usize, x: Switch) -> u64 {
        keys::run_key(row, x.date, number)
    }
}

// Writes the keys of one country's switches from a place on, which is the number of the first, and returns the place behind them: so it is
// counted by hand, here and below.
fn own_keys<K: SwitchOrder>(switches: Switches, row: u64, cells: &mut [u64], at: usize) -> usize
    requires { OwnAsked K.fits row at (switches_left switches) cells.old }
    ensures { FilledFrom (own_keys_from K.key_of row at (switches_left switches.entry)) at result cells.old cells.new }
{
    let mut k = at;
    for x in switches {
        cells[k] = K::key(row, k, x);
        k += 1;
    }
    k
}

// Writes the keys that changes settle by, in the order of the rows, and returns how many there are: those of a country's switches by the tag
// that was left, and behind them one from its own tag, dated behind every date.
fn all_settling_keys(all: KeyedCountries<'_>, cells: &mut [u64]) -> usize
    requires { length (settling_keys_from 0 (countries_left all.countries)) ≤ length cells.old }
    ensures { Filled (settling_keys_from 0 (countries_left all.entry.countries)) result cells.old cells.new }
{
    let mut k = 0;
    for (row, country) in all.countries.enumerate() {
        k = own_keys::<ByFrom>(country.switches, row as u64, cells, k);
        cells[k] = keys::settling_key(
            country.tag,
            Eu4Date::from_word_unchecked(LAST_DATE),
            row as u64,
        );
        k += 1;
    }
    k
}

// Writes the keys that changes settle by, in order, and returns how many there are. The scratch is to have room for as many.
pub(crate) fn settling_keys(
    all: KeyedCountries<'_>,
    cells: &mut [u64],
    scratch: &mut [u64],
) -> usize
    requires { length (settling_keys_from 0 (countries_left all.countries)) ≤ length cells.old }
    ensures { Filled (settling_keys (countries_left all.entry.countries)) result cells.old cells.new }
{
    let n = all_settling_keys(all, cells);
    sorting::spread_sort(&mut cells[..n], scratch);
    n
}

// Writes the keys of all switches by the rows of their countries, in the order of the rows, and returns how many there are. What it shares with
// the keys above is the call for one country: there a country's own key comes behind it, which here would have to be none.
fn all_run_keys(all: KeyedCountries<'_>, cells: &mut [u64]) -> usize
    requires { length (runs_from 0 0 (countries_left all.countries)) ≤ length cells.old }
    ensures { Filled (runs_from 0 0 (countries_left all.entry.countries)) result cells.old cells.new }
{
    let mut k = 0;
    for (row, country) in all.countries.enumerate() {
        k = own_keys::<ByRow>(country.switches, row as u64, cells, k);
    }
    k
}

// Writes the keys of all switches by the rows of their countries, in order, and returns how many there are. The scratch is to have room for as many. With the
// settling keys it shares the call that sorts, and no condition or promise.
pub(crate) fn run_keys(all: KeyedCountries<'_>, keys: &mut [u64], scratch: &mut [u64]) -> usize
    requires { length (runs_from 0 0 (countries_left all.countries)) ≤ length keys.old }
    ensures { Filled (run_keys (countries_left all.entry.countries)) result keys.old keys.new }
{
    let n = all_run_keys(all, keys);
    sorting::spread_sort(&mut keys[..n], scratch);
    n
}

// The from of the first switch, else the first previous tag, else the country's tag. Over all switches of a country this is its initial, and
// over those behind a switch, each with its previous tag, it is that switch's target.
pub(crate) fn first_tag(mut country: CountryRow<'_>) -> CountryTag
    ensures { result ≡ initial_of (country_of country.entry) }
{
    match country.switches.next() {
        Some(first) => first.from,
        None => country.previous.next().unwrap_or(country.tag),
    }
}

// Writes the target of each of one country's switches from a place on, and returns the place behind them. One previous tag is passed for
// each switch, so the last switch finds the one of its number. A target is told by the switches behind its own: so the walk is stepped by hand.
fn own_targets(mut country: CountryRow<'_>, targets: &mut [u64], at: usize) -> usize
    requires { at + length (switches_left country.switches) ≤ length targets.old }
    ensures { FilledFrom (own_targets (country_of country.entry)) at result targets.old targets.new }
{
    let mut k = at;
    while country.switches.next().is_some() {
        country.previous.next();
        targets[k] = u64::from(u32::from(first_tag(country)));
        k += 1;
    }
    k
}

// Writes the word of each switch's target, in the order of the rows. Numbers of 64 bits, for their cells serve the sort of keys before.
pub(crate) fn fill_targets(countries: Countries, targets: &mut [u64])
    requires { length (target_words (countries_left countries)) ≤ length targets.old }
    ensures { targets.new ≡ written (target_words (countries_left countries.entry)) targets.old }
{
    let mut k = 0;
    for country in countries {
        k = own_targets(country, targets, k);
    }
}
