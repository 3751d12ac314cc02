//! The rules of every answer as definitions, with cases computed from them, and the laws on them. The functions have no code: their promises are laws, the
//! guarantee, and what some definitions come to in plain words.
#![tactic(auto)]

mod guarantee;
mod readings;

pub use guarantee::finished_chronicle;
pub use readings::{
    decimal_reading, history_reading, kind_reading, lives_reading, starting_country_reading,
};
