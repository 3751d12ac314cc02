//! The record of a campaign, written back: its bytes as a definition, and the laws on them. The functions have no code: their promises are the laws.
#![tactic(auto)]

mod laws;

pub use laws::{packed_again, packed_bytes, packed_campaign};
