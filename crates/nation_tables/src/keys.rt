//! Sort keys, made of parts from high to low. A row is a number with a condition and no type of its own: loops count it and put it into a key at once.
ghost use Rattle.std.specs.Prelude.{◌<◌, ◌≡◌};
ghost use Rattle.nation_tables.specs.Layout.{key_rows, key_numbers, key_tags};
ghost use Rattle.nation_tables.specs.Keys.{row_key, row_in, settling_key, run_key};

use crate::layout::{KEY_DATES, KEY_NUMBERS, KEY_ROWS};
use format::{CountryTag, Eu4Date};

// The key of a tag that a country has, or had first, and of the country's row.
pub(crate) fn row_key(tag: CountryTag, row: u64) -> u64
    requires { row < key_rows }
    ensures { result ≡ row_key tag.0 row }
{
    u64::from(u32::from(tag)) * KEY_ROWS + row
}

/// The row in a key that ends with one.
pub fn row_in(key: u64) -> u16
    ensures { result ≡ row_in key }
{
    (key % KEY_ROWS) as u16
}

// The key of a switch by the tag that was left. Of two switches from one tag the earlier has the smaller key, and on one day the one in the
// earlier row.
pub(crate) fn settling_key(from: CountryTag, date: Eu4Date, row: u64) -> u64
    requires { (from.0 < key_tags) × (row < key_rows) }
    ensures { result ≡ settling_key from.0 date.0 row }
{
    (u64::from(u32::from(from)) * KEY_DATES + u64::from(u32::from(date))) * KEY_ROWS + row
}

// The key of a switch by the row of its country. A country's switches stand together, by date, ties in the order of the record.
pub(crate) fn run_key(row: u64, date: Eu4Date, number: usize) -> u64
    requires { (row < key_rows) × (number < key_numbers) }
    ensures { result ≡ run_key row date.0 number }
{
    (row * KEY_DATES + u64::from(u32::from(date))) * KEY_NUMBERS + number as u64
}
