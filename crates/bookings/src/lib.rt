//! War bookings: a row for each tag that joins a war, with the tag under which its country is stored. The claims of the chronicle are sorted a block at a
//! time, and each joining is looked up in each block; between blocks its best claim stands in its own row.
#![tactic(auto)]

mod booking_rows;
mod counting;
mod joinings;
mod participants;
mod passes;

pub use counting::booking_count;
pub use participants::{war_participants, war_participants_of};
