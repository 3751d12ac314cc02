//! How the answers of the calls reach the host: the number that a C function returns, and words in a lent slice.
//! What crate page_c exports for C, and the Rust host calls so: over slices, with numbers for answers. Slices are lent one by one and `Returns` stands in
//! each promise, for C has no other type of either.
#![tactic(auto)]

mod booking;
mod counts;
mod found;
mod ledgers;
mod numbers;
mod paging;
mod playing;
mod resolving;

ghost use Rattle.std.specs.Prelude.{◌≡◌, pos};
ghost use Rattle.format.specs.RecordNumber.{refusal};
ghost use Rattle.rules.specs.Outcomes.{call_province_owners};
ghost use Rattle.nations.specs.LentCells.{nation_cells};
ghost use Rattle.page.specs.Host.{Returns, call_events_on_cells, nation_slices, call_nation_events_cells};

use crate::counts::{has_counts, put_counts};
use crate::found::put_words;
use crate::numbers::{minus, returned, room_refusal};
pub use booking::war_participants;
use format::{DateRun, Eu4Date};
pub use ledgers::{nation_ledger, nation_ledger_rows, nation_ledgers};
pub use pages::{PRINTED_BYTES, print_page, write_page};
pub use paging::page;
pub use playing::{player_histories, players, starting_country};
pub use resolving::{
    resolver_initial, resolver_initial_at, resolver_resolve, resolver_resolve_at,
    resolver_resolve_each,
};

/// The record's refusal number, 0 when it is accepted.
pub fn check(s: &[u8]) -> i64
    ensures { result ≡ pos (refusal s.now) }
{
    match record::check(s) {
        Ok(()) => 0,
        Err(refusal) => i64::from(refusal.number()),
    }
}

/// Writes the owner changes, four words each. Gives their number, or minus the refusal number.
pub fn province_owners(s: &[u8], out: &mut [u32]) -> i64
    ensures { Returns (call_province_owners s.now out.old) result out.new }
{
    returned(chronicle::province_owners(s, out))
}

/// Writes where the changes of a date begin, and how many there are. Gives 2, or minus the refusal number: 12 for a word that is no
/// date, 10 where the slice has no two words.
#[tactic(auto, unfolding(crate::specs::Host::call_events_on_cells))]
pub fn events_on(s: &[u8], date: u32, out: &mut [u32]) -> i64
    ensures { Returns (call_events_on_cells s.now date out.old) result out.new }
{
    // The word is tested by the call, behind the record.
    match chronicle::events_on(s, Eu4Date::from_word_unchecked(date)) {
        Ok(DateRun { first, count }) => put_words([first as u32, count as u32], out),
        Err(refusal) => minus(refusal),
    }
}

/// Writes the listed nations, five words each, their entries, three words each, the holder of each slot and the slots held by each country
/// after the last change, the owner changes, four words each, and how many of each there are. Gives 5, the number of counts, or minus the
/// refusal number: 10 where any slice is too short.
#[tactic(auto, unfolding(crate::specs::Host::call_nation_events_cells))]
pub fn nation_events(
    s: &[u8],
    nations: &mut [u32],
    entries: &mut [u32],
    holders: &mut [u32],
    held: &mut [u32],
    changes: &mut [u32],
    counts: &mut [u32],
) -> i64
    ensures { Returns (call_nation_events_cells s.now (nation_slices (nation_cells nations.old entries.old holders.old held.old changes.old) counts.old)) result (nation_slices (nation_cells nations.new entries.new holders.new held.new changes.new) counts.new) }
{
    if !has_counts(counts) {
        return minus(room_refusal(record::check(s)));
    }
    match chronicle::nation_events(s, nations, entries, holders, held, changes) {
        Ok(found) => put_counts(found, counts),
        Err(refusal) => minus(refusal),
    }
}
