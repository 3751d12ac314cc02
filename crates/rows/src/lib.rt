//! The rows of lent words: how wide each kind is, each row by value, read and written, and whether words are a well-shaped chronicle or well-shaped
//! histories. Anybody may have written them. Widths, and positions of the words of a row, stand in this crate and nowhere above it.
#![tactic(auto)]

mod answer_rows;
mod chronicle;
mod entries;
mod history_rows;
mod lent_rows;
mod nation_rows;
mod shape;

pub use answer_rows::{BOOKING_WIDTH, CHANGE_WIDTH, LEDGER_WIDTH, PLAYER_WIDTH, QUESTION_WIDTH};
pub use chronicle::Chronicle;
pub use entries::NationEntries;
pub use history_rows::{
    HISTORY_WIDTH, Histories, history_count, history_row_at, is_history_shaped,
};
pub use lent_rows::{LentRows, Row, ToRow, put, row_at};
pub use nation_rows::{ENTRY_WIDTH, NATION_WIDTH, Nations, nation_count, nation_row_at};
