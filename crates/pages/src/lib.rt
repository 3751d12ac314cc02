//! The lines of the page, one by one, and the selection that says which.
//! The text of the page: its first line, and a line for each tag of the selection.
//! The page of a record for a selection of tags.
#![tactic(auto)]

mod lines;
mod listing;
mod living;
mod paging;
mod printing;
mod selection;
mod status;
mod stored;
mod text;

pub use paging::{MOST_BYTES, write_page};
pub use printing::{PRINTED_BYTES, print_page};
