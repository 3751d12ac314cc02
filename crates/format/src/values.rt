//! The values that the chronicle is told in, each declared once: the rules speak of these types, and the calls answer in them. None is tested here: a value
//! is as good as the record, or the lent row, that it was read from.
use crate::date::Eu4Date;
use crate::rows::ProvinceId;
use crate::tag::CountryTag;

/// An owner change: on this date the province passed from one tag to another.
#[derive(Clone, Copy, Debug, PartialEq, Eq)]
pub struct OwnerChange {
    pub date: Eu4Date,
    pub id: ProvinceId,
    pub from: CountryTag,
    pub to: CountryTag,
}

/// The run of owner changes with one date: where it begins among all changes in order, from 0, and how many they are.
#[derive(Clone, Copy, Debug, PartialEq, Eq)]
pub struct DateRun {
    pub first: usize,
    pub count: usize,
}

/// What an entry tells: the tag that its nation switched to, that it appeared, or that it was annexed.
#[derive(Clone, Copy, Debug, PartialEq, Eq)]
pub enum EntryKind {
    TagSwitch(CountryTag),
    Appeared,
    Annexed,
}

/// An entry of a nation: what befell it, and on which date.
#[derive(Clone, Copy, Debug, PartialEq, Eq)]
pub struct Entry {
    pub date: Eu4Date,
    pub kind: EntryKind,
}

/// A nation's row: its first tag, its latest, the tag that it is stored under, the number of its first entry row, from 0, and how many it has.
#[derive(Clone, Copy, Debug, PartialEq, Eq)]
pub struct NationRow {
    pub initial: CountryTag,
    pub latest: CountryTag,
    pub stored: CountryTag,
    pub first: u32,
    pub count: u32,
}

/// How many rows, or cells, of each kind a chronicle has.
#[derive(Clone, Copy, Debug, PartialEq, Eq)]
pub struct NationCounts {
    pub nations: usize,
    pub entries: usize,
    pub slots: usize,
    pub countries: usize,
    pub changes: usize,
}

/// Whose tag it is: the tag that the nation goes by, and the one that it is stored under.
///
/// # Source
/// `TagData` of tag_resolver.rs.
#[derive(Clone, Copy, Debug, PartialEq, Eq)]
pub struct TagData {
    pub current: CountryTag,
    pub stored: CountryTag,
}

/// A question to the resolver: whose this tag was on a date.
#[derive(Clone, Copy, Debug, PartialEq, Eq)]
pub struct Question {
    pub tag: CountryTag,
    pub date: Eu4Date,
}

/// A tag that joined a war, on which date, and the war's number, from 0.
#[derive(Clone, Copy, Debug, PartialEq, Eq)]
pub struct Joining {
    pub war: u32,
    pub date: Eu4Date,
    pub tag: CountryTag,
}

/// A war's booking: the war's number, from 0, the tag that joined, and the tag that its nation is stored under.
#[derive(Clone, Copy, Debug, PartialEq, Eq)]
pub struct Booking {
    pub war: u32,
    pub tag: CountryTag,
    pub stored: CountryTag,
}

/// A span of a nation: a tag, and the dates whose years bound the points that it takes of that tag's ledger.
#[derive(Clone, Copy, Debug, PartialEq, Eq)]
pub struct Span {
    pub tag: CountryTag,
    pub start: Eu4Date,
    pub end: Eu4Date,
}

/// A point of a nation's ledger: its value is the record's word, in two's complement.
#[derive(Clone, Copy, Debug, PartialEq, Eq)]
pub struct LedgerPoint {
    pub tag: CountryTag,
    pub year: u32,
    pub value: u32,
}

/// A player: the string number of the name, from 0, and the tag.
#[derive(Clone, Copy, Debug, PartialEq, Eq)]
pub struct Player {
    pub name: u32,
    pub tag: CountryTag,
}

/// A history's row: its three tags; its nation, counted from 1, or 0 for none; 1 for a human, else 0; where its names begin in the list of names, and how
/// many they are.
#[derive(Clone, Copy, Debug, PartialEq, Eq)]
pub struct HistoryRow {
    pub initial: CountryTag,
    pub latest: CountryTag,
    pub stored: CountryTag,
    pub nation: u32,
    pub human: u32,
    pub first: u32,
    pub count: u32,
}

/// How many histories there are, and how many names they have in all.
#[derive(Clone, Copy, Debug, PartialEq, Eq)]
pub struct HistoryCounts {
    pub histories: usize,
    pub names: usize,
}
