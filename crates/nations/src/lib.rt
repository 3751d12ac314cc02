//! The nations of a campaign: who lived, under which tags. Tables of the campaign are gathered (nation_tables); from these its nations are listed one by one,
//! each with its entries, and written as rows beside the holders of its slots and its owner changes.
#![tactic(auto)]

mod country_entries;
mod country_lives;
mod gathered_nations;
mod listed_nations;
mod nations;
mod slots_and_changes;
mod tables;
mod written_nations;

pub use nations::{nation_events, nation_events_of};
