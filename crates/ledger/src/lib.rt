//! The ledger of a nation, and of all nations: the points of its spans, with zeros for the years between. All are counted before the first
//! cell is written, and no more of them than there may be room for.
#![tactic(auto)]

mod all_nations;
mod counting;
mod filling;
mod index;
mod nation;
mod opening;
mod point_counts;
mod spans;
mod writing;

pub use all_nations::{nation_ledgers, nation_ledgers_of};
pub use nation::{nation_ledger, nation_ledger_of, nation_ledger_rows, nation_ledger_rows_of};
