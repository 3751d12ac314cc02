//! Owner changes: one by one, by the sort keys that they are ordered by, and as rows, which are written in entry order and put in order where they stand.
#![tactic(auto)]

mod changes;
mod entering;
mod keys;
mod ordered_rows;
mod ordering;
mod owners;
mod runs;
mod writing;

pub use changes::{Changes, Changing, ProvinceChanges};
pub use keys::{ChangeKey, ChangeTags, MOST_CHANGES, fill_keys};
pub use owners::{events_on, events_on_of, province_owners, province_owners_of};
pub use writing::write_sorted;
