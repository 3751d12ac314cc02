//! The tables that nations are read from: of countries, switches, changes and slots, all gathered from an opened record (`gather_tables`). Each is an array of
//! its own: keys are sorted as words, and a step is lent only the tables that it reads or writes, for each takes others of them.
#![tactic(auto)]

mod chains;
mod countries;
mod fitting;
mod gathering;
mod holders;
mod keys;
mod layout;
mod lookup;
mod settling;
mod starting;
mod switches;

pub use countries::mapped_row;
pub use fitting::FittingRecord;
pub use gathering::{TableCells, TableSizes, gather_tables};
pub use holders::write_slots;
pub use keys::row_in;
pub use layout::{
    KEY_DATES, KEY_NUMBERS, KEY_ROWS, LossGain, MOST_SETTLING, MOST_SLOTS, NO_CHANGE, ROW_KEY_SPAN,
    ROW_SPAN, SHORT_SPAN, WORD_SPAN,
};
pub use lookup::{cell_at, last_within};
