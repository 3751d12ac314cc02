//! The packed record of a campaign: its check, and its rows for the layer above. Crate format has its types, and record_check its check.
#![tactic(auto)]

mod cursors;
mod ledger;
mod opened;
mod provinces;
mod rows;
mod texts;

pub use cursors::{Countries, CountryRow, Wars};
pub use format::{
    CountryTag, Eu4Date, NotADate, NotATag, OwnerEvent, Point, ProvinceId, Refusal, Switch,
    WarEvent,
};
pub use ledger::{LedgerRow, Ledgers};
pub use opened::Record;
pub use provinces::{ProvinceRow, Provinces};
pub use record_check::check;
pub use rows::{OwnerEvents, Points, PreviousTags, ROW_BYTES, Rows, Switches, WarEvents};
pub use texts::Strings;
