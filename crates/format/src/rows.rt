//! The rows that own nothing. A row that owns others comes with an iterator over them (crate record).
ghost use Rattle.std.specs.Prelude.{◌≡◌};

use crate::date::Eu4Date;
use crate::tag::CountryTag;

/// A province's number, from 0 to the number of provinces in an accepted record.
#[derive(Clone, Copy, Debug, PartialEq, Eq, PartialOrd, Ord)]
pub struct ProvinceId(pub(crate) u32);

impl ProvinceId {
    /// The id that was kept as its number in a sort key or a cell. Named as for tag and date: it says that nothing is tested.
    pub fn from_word_unchecked(word: u32) -> ProvinceId
        ensures { result.0 ≡ word }
    {
        ProvinceId(word)
    }
}

// The word that a row holds for an id.
impl From<ProvinceId> for u32 {
    ghost from_gives = { λ id word. word ≡ id.0 };

    fn from(id: ProvinceId) -> u32 {
        id.0
    }
}

/// A country was known as `from` until this date.
#[derive(Clone, Copy, Debug, PartialEq, Eq)]
pub struct Switch {
    pub date: Eu4Date,
    pub from: CountryTag,
}

/// A province passed to this tag. Of the shape of a switch, and a type of its own: neither can be taken for the other.
#[derive(Clone, Copy, Debug, PartialEq, Eq)]
pub struct OwnerEvent {
    pub date: Eu4Date,
    pub tag: CountryTag,
}

/// Kind 0 adds an attacker, 1 a defender; 2 and 3 remove one; 4 is a battle. A number and no enum: the check of a row is asked of this type, and must
/// tell a kind above 4 from the others. The kind of a lent entry (crate rows) is tested as a number before an enum is made of it.
#[derive(Clone, Copy, Debug, PartialEq, Eq)]
pub struct WarEvent {
    pub date: Eu4Date,
    pub kind: u32,
    pub tag: CountryTag,
}

/// A ledger's value in a year; the value is signed, as a word in two's complement.
#[derive(Clone, Copy, Debug, PartialEq, Eq)]
pub struct Point {
    pub year: u32,
    pub value: u32,
}
