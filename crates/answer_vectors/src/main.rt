//! Replays the stored campaigns of answers.bin, each a record and what a chronicle answers of it, and counts the wrong answers. The list is made
//! by host/oracle's answer_vectors. Its numbers take 32 bits each, low byte first: the bytes of the record, and how many changes, days, nations,
//! entries, slots and countries follow; then these, of 4, 3, 5, 3, 1 and 1 numbers each. Held to the record are its changes, days and nations.
#![tactic(auto)]

ghost use Rattle.std.specs.Prelude.{◌<◌, ◌≤◌, ℕ, List, IsTrue, length};
ghost use Rattle.std.specs.Io.KnownBytes.{Consumes};

use format::{DateRun, Eu4Date, NationCounts};
use rows::{CHANGE_WIDTH, ENTRY_WIDTH, NATION_WIDTH};
use std::io;
use std::io::Read;
use stored_input::{
    BrokenOff, Counts, ReplayNext, Stop, next_number, read_numbers, read_part, take_part,
    tally_file,
};

// How many bytes a record has at most, and how many days and rows of each kind a campaign.
const RECORD_BYTES: usize = 1000;

const MOST_ROWS: usize = 1000;

// How many numbers the parts of a chronicle have at most, which are read at once: nations, entries, slots and countries.
const PART_NUMBERS: usize = (NATION_WIDTH + ENTRY_WIDTH + 2) * MOST_ROWS;

// Room for the record of a campaign, and for the numbers of a part: of a fixed size, since nothing is allocated.
#[derive(Drop)]
struct Campaigns {
    record: [u8; RECORD_BYTES],
    numbers: [u32; PART_NUMBERS],
}

// Whether the owner changes are the stored ones.
fn same_owners(s: &[u8], stored: &[u32]) -> bool {
    let mut words = [0u32; CHANGE_WIDTH * MOST_ROWS];
    let told = chronicle::province_owners(s, &mut words);
    told == Ok(stored.len() / CHANGE_WIDTH) && words.starts_with(stored)
}

// Whether the next day has another run of changes than stored. One that the list breaks off in is wrong.
fn is_wrong_day<R: Read>(list: &mut R, s: &[u8]) -> bool
    ensures { (bytes : List ℕ) × Consumes (R.remaining list.old) (R.remaining list.new) bytes
        × (length bytes < 12 → IsTrue result) }
{
    let Ok(day) = read_numbers(list) else {
        return true;
    };
    let [date, first, count]: [u32; 3] = day;
    let run = DateRun {
        first: first as usize,
        count: count as usize,
    };
    chronicle::events_on(s, Eu4Date::from_word_unchecked(date)) != Ok(run)
}

// How many of the next days are wrong.
fn wrong_days<R: Read>(list: &mut R, s: &[u8], days: u32) -> usize
    ensures few { result ≤ days }
    ensures read { (bytes : List ℕ) × Consumes (R.remaining list.old) (R.remaining list.new) bytes }
{
    let mut wrong = 0;
    for _ in 0..days {
        wrong += usize::from(is_wrong_day(list, s));
    }
    wrong
}

// What is stored of a campaign's nations: how many rows and slots, and their words.
#[derive(Clone, Copy)]
struct ExpectedNations<'a> {
    counts: NationCounts,
    nations: &'a [u32],
    entries: &'a [u32],
    holders: &'a [u32],
    held: &'a [u32],
}

// Whether nations, entries, holders and slots held are the stored ones, and so many.
fn same_nations(s: &[u8], stored: ExpectedNations<'_>) -> bool {
    let mut nations = [0u32; NATION_WIDTH * MOST_ROWS];
    let mut entries = [0u32; ENTRY_WIDTH * MOST_ROWS];
    let mut holders = [0u32; MOST_ROWS];
    let mut held = [0u32; MOST_ROWS];
    let mut changes = [0u32; CHANGE_WIDTH * MOST_ROWS];
    let told = chronicle::nation_events(
        s,
        &mut nations,
        &mut entries,
        &mut holders,
        &mut held,
        &mut changes,
    );
    told == Ok(stored.counts)
        && nations.starts_with(stored.nations)
        && entries.starts_with(stored.entries)
        && holders.starts_with(stored.holders)
        && held.starts_with(stored.held)
}

impl ReplayNext for Campaigns {
    ghost use Rattle.std.specs.Prelude.{◌≡◌, ◌≤◌, [], length};

    // Of its cases it is promised that they have a head: what they come to is held to the file stdout.
    ghost comes_to = { λ bytes _. 28 ≤ length bytes };

    ghost leaves = { λ rest. rest ≡ [] };

    fn replay_next<R: Read>(&mut self, list: &mut R) -> Result<Option<Counts>, Stop> {
        let Some(len) = next_number(list)? else {
            return Ok(None);
        };
        let rest: [u32; 6] = read_numbers(list)?;
        if rest.iter().any(|n| *n as usize > MOST_ROWS) {
            return Err(Stop::BrokenOff);
        }
        let [changes, days, nations, entries, slots, countries] = rest;
        let counts = NationCounts {
            nations: nations as usize,
            entries: entries as usize,
            slots: slots as usize,
            countries: countries as usize,
            changes: changes as usize,
        };
        let s = read_part(list, len as usize, &mut self.record)?;
        let owners = read_part(list, CHANGE_WIDTH * counts.changes, &mut self.numbers)?;
        let wrong_owners = usize::from(!same_owners(s, owners));
        let wrong_days = wrong_days(list, s, days);
        let nation_words = NATION_WIDTH * counts.nations;
        let entry_words = ENTRY_WIDTH * counts.entries;
        let n = nation_words + entry_words + counts.slots + counts.countries;
        let mut left = read_part(list, n, &mut self.numbers)?;
        let stored = ExpectedNations {
            counts,
            nations: take_part(&mut left, nation_words)?,
            entries: take_part(&mut left, entry_words)?,
            holders: take_part(&mut left, counts.slots)?,
            held: take_part(&mut left, counts.countries)?,
        };
        let wrong_nations = usize::from(!same_nations(s, stored));
        Ok(Some(Counts {
            questions: days as usize,
            wrong: wrong_owners + wrong_days + wrong_nations,
            noticed: 0,
        }))
    }
}

// What is printed no promise tells: no clause of the host's output says which bytes reach it. It is held to the file stdout.
fn main(rt: HostRuntime) -> io::Result<()> {
    let mut campaigns = Campaigns {
        record: [0; RECORD_BYTES],
        numbers: [0; PART_NUMBERS],
    };
    let all = tally_file(&rt, "answers.bin", &mut campaigns).unwrap_or_default();
    println!(rt;
        "{} campaigns, {} days, {} wrong",
        all.cases, all.counts.questions, all.counts.wrong
    )
}
