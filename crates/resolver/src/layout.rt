//! How a claim's tag, date and number share a key of 64 bits, and how much of its nation's number a row holds. A key is made of 21 bits for the
//! tag, 27 for the date and 16 for the number, and keys compare part by part.

// A letter takes a byte of a tag's word, and seven bits of a key.
pub(crate) const ONE_BYTE: u64 = 1 << 8;

pub(crate) const TWO_BYTES: u64 = ONE_BYTE * ONE_BYTE;

pub(crate) const ONE_LETTER: u64 = 1 << 7;

pub(crate) const TWO_LETTERS: u64 = ONE_LETTER * ONE_LETTER;

// Words of dates, and the numbers of claims in their block, are below these.
pub(crate) const CLAIM_DATES: u64 = 1 << 27;

pub(crate) const CLAIM_NUMBERS: u64 = 1 << 16;

// The highest number of a claim.
pub(crate) const LAST_NUMBER: u64 = CLAIM_NUMBERS - 1;

// So many numbers lie between the keys of one tag and those of the next.
pub(crate) const CLAIM_SPAN: u64 = CLAIM_DATES * CLAIM_NUMBERS;

// The most claims that a block can have.
pub(crate) const MOST_CLAIMS: usize = CLAIM_NUMBERS as usize;

// A row holds the number of a nation plus 1 in a word: numbers below this have room.
pub(crate) const ROW_OWNERS: usize = u32::MAX as usize;

// The same number, as wide as the owners of a block.
pub(crate) const OWNER_NUMBERS: u64 = ROW_OWNERS as u64;
