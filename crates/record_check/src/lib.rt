//! The check of a record: its head and what its sections are, read from any bytes; sizes; the first bad field; what stands twice. `accept` gives the head and
//! the rows of an accepted record, or its refusal.
#![tactic(auto)]

mod bitset;
mod fields;
mod flags;
mod numbers;
mod opening;
mod parsed;
mod repeats;
mod rows;
mod sections;
mod sizes;
mod tables;
mod verdict;

pub use flags::bit;
pub use parsed::Parsed;
pub use sections::Sections;
pub use verdict::{accept, check};
