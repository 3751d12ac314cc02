//! The players of a campaign, the histories of the countries that they played, and the country that a campaign was started as. Each played country is
//! drafted first; then the drafts are put in order.
#![tactic(auto)]

mod arranged_drafts;
mod country_drafts;
mod draft_names;
mod draft_parts;
mod drafts;
mod histories;
mod history_rows;
mod marks;
mod pairs;
mod player_rows;
mod starting;
mod tag_tables;
mod walk;

pub use histories::{player_histories, player_histories_of};
pub use player_rows::{players, players_of};
pub use starting::starting_country;
