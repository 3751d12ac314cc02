//! How numbers share keys and cells, and how many of each a record has at most. A key is made of parts from high to low, and keys compare part
//! by part: a row of countries takes 11 bits of it, a date 27 and the number of a switch 15, a tag 24. So the keys fit 64 bits.
use format::{MOST_COUNTRIES, MOST_PROVINCES, MOST_SWITCHES};

/// How many slots a record has at most: one more than provinces.
pub const MOST_SLOTS: usize = MOST_PROVINCES + 1;

/// How many keys changes settle by at most: one of each switch, and one of each country.
pub const MOST_SETTLING: usize = MOST_SWITCHES + MOST_COUNTRIES;

/// Rows of countries in a key are below this.
pub const KEY_ROWS: u64 = 1 << 11;

/// Words of dates in a key are below this.
pub const KEY_DATES: u64 = 1 << 27;

/// Numbers of switches in a key are below this.
pub const KEY_NUMBERS: u64 = 1 << 15;

// Behind every date: no date that is good is as large, and it has room in a key. A number, for a part of a key is one.
pub(crate) const LAST_DATE: u32 = KEY_DATES as u32 - 1;

// How many numbers a byte holds: each is below this.
pub(crate) const BYTE_SPAN: u64 = 1 << 8;

/// How many numbers 16 bits hold: each is below this.
pub const SHORT_SPAN: u64 = 1 << 16;

/// How many numbers a word of 32 bits holds: each is below this.
pub const WORD_SPAN: u64 = 1 << 32;

/// The key of any word with a row is below this.
pub const ROW_KEY_SPAN: u64 = WORD_SPAN * KEY_ROWS;

// So many numbers lie between the settling keys of one tag and those of the next.
pub(crate) const TAG_SPAN: u64 = KEY_DATES * KEY_ROWS;

/// So many lie between the run keys of one row and those of the next.
pub const ROW_SPAN: u64 = KEY_DATES * KEY_NUMBERS;

/// Ends a chain of changes.
/// A number and no Option, which would take another 16 bits for each link.
pub const NO_CHANGE: u16 = u16::MAX;

/// Of a change the rows of the country that loses the slot and of the one that gains it, and later the numbers of the next changes at which
/// they lose and gain one. Of a row the numbers of its first loss and of its first gain.
/// One type for all: links come to stand in the cells of rows, as there is no heap for more.
#[derive(Clone, Copy, Debug, PartialEq, Eq)]
pub struct LossGain {
    pub loss: u16,
    pub gain: u16,
}

impl LossGain {
    /// Neither a loss nor a gain.
    pub const NONE: LossGain = LossGain {
        loss: NO_CHANGE,
        gain: NO_CHANGE,
    };
}

// No row: there is no country. For cells alone, whose lower half is a number; functions answer an Option.
pub(crate) const NO_ROW: u16 = u16::MAX;

// The cell of a slot or of a change: the word of the holder times this, and below it the row of its country, or NO_ROW.
pub(crate) const CELL_ROWS: u64 = 1 << 16;

// The cell of a slot that nobody holds: no word, and no row. A number: cells are 64 bits, since those of changes serve the sort as scratch, and the cell
// of a change is put into its slot as it stands.
pub(crate) const NOBODY: u64 = NO_ROW as u64;
