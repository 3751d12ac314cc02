//! The finished chronicle of a record, by one call on lent memory: nations with their entries, holders and changes,
//! whose a tag is on a day, and the war bookings, each by the rows that were written before.
ghost use Rattle.std.specs.Prelude.{◌≡◌, IfOk};
ghost use Rattle.rules.specs.Lent.{outcome_of};
ghost use Rattle.rules.specs.Finished.{call_finish_chronicle, FinishedCells};
ghost use Rattle.chronicle.specs.Finishing.{answer_told, lent_slices};

use bookings::{booking_count, war_participants_of};
use format::{CountryTag, Eu4Date, NationCounts, Refusal, TagData};
use nations::nation_events_of;
use record::Record;
use resolver::at;
use rows::{BOOKING_WIDTH, ENTRY_WIDTH, NATION_WIDTH};

/// What a finished chronicle answers: how many rows `nation_events` wrote of each kind, whose the tag is that was
/// asked for, if anybody's, and how many bookings there are.
#[derive(Clone, Copy, Debug, PartialEq, Eq)]
pub struct FinishedAnswer {
    pub counts: NationCounts,
    pub found: Option<TagData>,
    pub bookings: usize,
}

/// Writes the finished chronicle of an opened record into six slices: the first five as `nation_events` does, the
/// bookings as `war_participants` does. Asks the resolver, set to the day, for the tag on that day. Both are lent the
/// rows of nations and entries just written, and no others. Refused are, by `BadQuestion`, a bad tag or a bad day, and
/// by `NoRoom` a slice that is too short; then all are left as they were.
pub fn finish_chronicle_of(
    opened: Record<'_>,
    tag: CountryTag,
    day: Eu4Date,
    nations: &mut [u32],
    entries: &mut [u32],
    holders: &mut [u32],
    held: &mut [u32],
    changes: &mut [u32],
    bookings: &mut [u32],
) -> Result<FinishedAnswer, Refusal>
    ensures { outcome_of answer_told result
        (lent_slices nations.new entries.new holders.new held.new changes.new bookings.new)
        ≡ call_finish_chronicle opened.entry.bytes.now tag.0 day.0
        (lent_slices nations.old entries.old holders.old held.old changes.old bookings.old) }
{
    // The slices are lent one by one: of a struct of them nothing is known after a call (PROVING L6).
    if !(tag.is_valid() & day.is_valid()) {
        return Err(Refusal::BadQuestion);
    }
    if bookings.len() / BOOKING_WIDTH < booking_count(opened) {
        return Err(Refusal::NoRoom);
    }
    let counts = nation_events_of(opened, nations, entries, holders, held, changes)?;
    let written = &nations[..NATION_WIDTH * counts.nations];
    let listed = &entries[..ENTRY_WIDTH * counts.entries];
    let found = at(day).resolve_at(written, listed, tag, day)?;
    let bookings = war_participants_of(opened, written, listed, bookings)?;
    Ok(FinishedAnswer {
        counts,
        found,
        bookings,
    })
}

/// Writes the finished chronicle of a record, as `finish_chronicle_of` does. A bad record is refused by its own
/// refusal, all else as there.
///
/// What is promised besides is the guarantee, of the answer and the cells that are left (Rules 12.5 to 12.8): the rows
/// are the record's changes and its listed nations with all their entries; the entries tell on which days each nation
/// lives; a nation that wears the tag alone on the day is found by it; and who joins a war, under the tag that a nation
/// wears alone on that day, is booked under its stored tag.
pub fn finish_chronicle(
    s: &[u8],
    tag: CountryTag,
    day: Eu4Date,
    nations: &mut [u32],
    entries: &mut [u32],
    holders: &mut [u32],
    held: &mut [u32],
    changes: &mut [u32],
    bookings: &mut [u32],
) -> Result<FinishedAnswer, Refusal>
    ensures outcome { outcome_of answer_told result
        (lent_slices nations.new entries.new holders.new held.new changes.new bookings.new)
        ≡ call_finish_chronicle s.now tag.0 day.0
        (lent_slices nations.old entries.old holders.old held.old changes.old bookings.old) }
    ensures guaranteed { IfOk result (λ answer. FinishedCells s.now tag day (answer_told answer)
        (lent_slices nations.new entries.new holders.new held.new changes.new bookings.new)) }
{
    let opened = Record::open(s)?;
    finish_chronicle_of(
        opened, tag, day, nations, entries, holders, held, changes, bookings,
    )
}
