//! The rows of each section: behind those of the section before it, so many as the head says.
ghost use Rattle.std.specs.Prelude.{◌*◌, ◌<◌, ◌^◌, length, MatchOption};
ghost use Rattle.format.specs.Head.{strings_at};
ghost use Rattle.record_check.specs.Sections.{SectionsOf, RowsCut};

use crate::opening::HEAD_BYTES;
use format::Head;

/// The rows of each section as they stand in the bytes, and the bytes behind the points, where the strings are.
#[derive(Clone, Copy)]
pub struct Sections<'a> {
    pub countries: &'a [[u8; 12]],
    pub previous: &'a [[u8; 3]],
    pub switches: &'a [[u8; 7]],
    pub provinces: &'a [[u8; 7]],
    pub events: &'a [[u8; 7]],
    pub wars: &'a [[u8; 2]],
    pub war_events: &'a [[u8; 8]],
    pub ledgers: &'a [[u8; 5]],
    pub points: &'a [[u8; 6]],
    pub strings: &'a [u8],
}

// The first n rows of a width, and the bytes behind them, if there are as many.
fn take_rows<const WIDTH: usize>(bytes: &[u8], n: u32) -> Option<(&[[u8; WIDTH]], &[u8])>
    requires { (0 < WIDTH) × (WIDTH < 2 ^ 16) }
    ensures { MatchOption result (length bytes.now < WIDTH * n) (λ r. RowsCut WIDTH n bytes.now r.0.now r.1.now) }
{
    let (rows, rest) = bytes.split_at_checked(WIDTH * n as usize)?;
    Some((rows.as_chunks().0, rest))
}

// The sections of a head, if the bytes are enough for them.
pub(crate) fn sections_of(s: &[u8], h: Head) -> Option<Sections<'_>>
    ensures { MatchOption result (length s.now < strings_at h) (λ z. SectionsOf s.now h z) }
{
    let (_, rest) = s.split_at_checked(HEAD_BYTES)?;
    let (countries, rest) = take_rows(rest, h.countries)?;
    let (previous, rest) = take_rows(rest, h.previous)?;
    let (switches, rest) = take_rows(rest, h.switches)?;
    let (provinces, rest) = take_rows(rest, h.provinces)?;
    let (events, rest) = take_rows(rest, h.events)?;
    let (wars, rest) = take_rows(rest, h.wars)?;
    let (war_events, rest) = take_rows(rest, h.war_events)?;
    let (ledgers, rest) = take_rows(rest, h.ledgers)?;
    let (points, strings) = take_rows(rest, h.points)?;
    Some(Sections {
        countries,
        previous,
        switches,
        provinces,
        events,
        wars,
        war_events,
        ledgers,
        points,
        strings,
    })
}
