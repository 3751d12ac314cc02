//! The chronicle of a campaign: every call by values, with the types that they answer in.
#![tactic(auto)]

mod finished;

pub use bookings::war_participants;
pub use finished::{FinishedAnswer, finish_chronicle, finish_chronicle_of};
pub use format::{
    CountryTag, DateRun, Eu4Date, HistoryCounts, HistoryRow, NationCounts, ProvinceId, Question,
    Refusal, TagData,
};
pub use ledger::{nation_ledger, nation_ledger_rows, nation_ledgers};
pub use nations::nation_events;
pub use owner_changes::{events_on, province_owners};
pub use players::{player_histories, players, starting_country};
pub use resolver::{TagResolverDated, at, initial, resolve, resolve_each};
pub use rows::{history_count, history_row_at, is_history_shaped};
