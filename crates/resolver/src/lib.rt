//! The resolver: under which tag a country that was once known by a tag stands now, and where it is stored. Each nation claims its initial, and every tag that
//! it switched to, from a date on; the best of the claims to a tag says whose it is. For many questions at once the claims of a chronicle are sorted a block
//! at a time, and each question is looked up in each block; between blocks its best claim stands in its own row of the answer.
#![tactic(auto)]

mod asked;
mod best;
mod blocks;
mod claims;
mod each;
mod forms;
mod holding;
mod layout;
mod words;
mod worn;

pub use best::best_claim;
pub use claims::Claim;
pub use each::resolve_each;
pub use forms::{TagResolverDated, at, initial, resolve};
pub use holding::{BlockPass, ClaimBlock, fit_in_rows, hold_blocks};
pub use words::row_owner;
