//! A record's head: how it opens, what stands in it, and the tests of its numbers.
ghost use Rattle.std.specs.Prelude.{◌≡◌, eqb};
ghost use Rattle.format.specs.Head.{head_of, within_limits};
ghost use Rattle.format.specs.RecordNumber.{opens, head_number};
ghost use Rattle.format.specs.RefusalNumber.{number_of};
ghost use Rattle.format.specs.Dates.{earlier};

use crate::flags::flags_defined;
use format::{
    Head, MOST_COUNTRIES, MOST_EVENTS, MOST_LEDGERS, MOST_POINTS, MOST_PREVIOUS, MOST_PROVINCES,
    MOST_STRINGS, MOST_SWITCHES, MOST_WAR_EVENTS, MOST_WARS, Packed, Refusal,
};

// How many bytes a head has.
pub(crate) const HEAD_BYTES: usize = 44;

// The head as it stands in the bytes; of fewer than it needs, with zeros for the others.
pub(crate) fn read_head(s: &[u8]) -> Head
    ensures { result ≡ head_of s.now }
{
    let n = s.len().min(HEAD_BYTES);
    let mut bytes = [0u8; HEAD_BYTES];
    bytes[..n].copy_from_slice(&s[..n]);
    Head::unpack(&bytes)
}

// Whether the bytes open as a record does: a head's, of which the first three are `ATL`.
pub(crate) fn opens_record(s: &[u8]) -> bool
    ensures { result ≡ opens s.now }
{
    (HEAD_BYTES <= s.len()) & s.starts_with(b"ATL")
}

// Version 1 is the one that is read.
pub(crate) fn version_known(h: Head) -> bool
    ensures { result ≡ eqb h.version 1 }
{
    h.version == 1
}

// Every count is at most its limit.
#[tactic(auto, unfolding(format::specs::Head::within_limits))]
pub(crate) fn within_limits(h: Head) -> bool
    ensures { result ≡ within_limits h }
{
    (h.countries as usize <= MOST_COUNTRIES)
        & (h.provinces as usize <= MOST_PROVINCES)
        & (h.previous as usize <= MOST_PREVIOUS)
        & (h.switches as usize <= MOST_SWITCHES)
        & (h.events as usize <= MOST_EVENTS)
        & (h.strings as usize <= MOST_STRINGS)
        & (h.wars as usize <= MOST_WARS)
        & (h.war_events as usize <= MOST_WAR_EVENTS)
        & (h.ledgers as usize <= MOST_LEDGERS)
        & (h.points as usize <= MOST_POINTS)
}

// The first of the head's flags and dates that is bad refuses it.
#[tactic(auto, unfolding(format::specs::RecordNumber::head_number, format::specs::RecordNumber::first_of))]
pub(crate) fn head_checked(h: Head) -> Result<(), Refusal>
    ensures { number_of result ≡ head_number h }
{
    if !flags_defined(h.flags, 2) {
        return Err(Refusal::UndefinedFlag);
    }
    if !(h.start.is_valid() & h.current.is_valid()) {
        return Err(Refusal::BadDate);
    }
    Ok(())
}

// Whether the current date lies before the start date.
pub(crate) fn ends_early(h: Head) -> bool
    ensures { result ≡ earlier h.current h.start }
{
    h.current < h.start
}
