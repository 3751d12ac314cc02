//! The types that everything above speaks of: tags, dates, ids, the record's rows, the values that a chronicle is told in, and refusals, with the rules of
//! tags and dates. What a record is stands in specs; crate record_check tests one.
#![tactic(auto)]

mod date;
mod head;
mod limits;
mod packed;
mod refused;
mod rows;
mod tag;
mod values;

pub use date::{Eu4Date, NotADate, month_days};
pub use head::Head;
pub use limits::{
    MOST_COUNTRIES, MOST_EVENTS, MOST_LEDGERS, MOST_POINTS, MOST_PREVIOUS, MOST_PROVINCES,
    MOST_STRINGS, MOST_SWITCHES, MOST_WAR_EVENTS, MOST_WARS,
};
pub use packed::{Packed, PackedCountry, PackedLedger, PackedProvince};
pub use refused::Refusal;
pub use rows::{OwnerEvent, Point, ProvinceId, Switch, WarEvent};
pub use tag::{CountryTag, NotATag, tag_byte};
pub use values::{
    Booking, DateRun, Entry, EntryKind, HistoryCounts, HistoryRow, Joining, LedgerPoint,
    NationCounts, NationRow, OwnerChange, Player, Question, Span, TagData,
};
