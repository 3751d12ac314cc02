//! Sorted 64-bit keys: how many are up to a number, and the first element that has a tag.
#![tactic(auto)]

mod halving;
mod places;

pub use halving::{CELLS, SortedKeys, index_block};
pub use places::{KEYS_PER_TAG, first_place, tag_key};
