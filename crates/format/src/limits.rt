//! The most rows of each kind that a record may have.

/// Countries.
pub const MOST_COUNTRIES: usize = 2000;

/// Provinces.
pub const MOST_PROVINCES: usize = 8000;

/// Previous tags, of all countries together.
pub const MOST_PREVIOUS: usize = 20000;

/// Switches, of all countries together.
pub const MOST_SWITCHES: usize = 20000;

/// Owner events, of all provinces together.
pub const MOST_EVENTS: usize = 60000;

/// Strings.
pub const MOST_STRINGS: usize = 1000;

/// Wars.
pub const MOST_WARS: usize = 5000;

/// War events, of all wars together.
pub const MOST_WAR_EVENTS: usize = 100000;

/// Ledger names.
pub const MOST_LEDGERS: usize = 2000;

/// Points, of all ledger names together.
pub const MOST_POINTS: usize = 1000000;
