//! Runs the starred cases of record, nations and resolver through the code (Rules 12.11), and prints what it answers; the file stdout has what they say.
//! worked.atl is the worked record, one_slot.atl that of GBR's only slot.
#![tactic(auto)]

ghost use Rattle.std.specs.Prelude.{IfOk};
ghost use Rattle.starred.specs.FinishedRows.{FinishedRows};

mod shown;

use chronicle::{FinishedAnswer, at, finish_chronicle, resolve};
use format::{CountryTag, Entry, Eu4Date, Refusal};
use record::check;
use rows::{BOOKING_WIDTH, CHANGE_WIDTH, ENTRY_WIDTH, NATION_WIDTH, Row};
use shown::Shown;
use std::fs::File;
use std::io;
use std::rt::Files;
use stored_input::read_full;

// How many bytes the records have, at most. Records and rows have room of a fixed size, since nothing is allocated.
const RECORD_BYTES: usize = 103;

// How many events of wars so many bytes have at most: eight each, behind a head of 44. Each is one booking at most.
const MOST_BOOKINGS: usize = (RECORD_BYTES - 44) / 8;

// Reads a record as far as it comes: nothing of one that cannot be opened.
fn read_record<'a, F: Files>(rt: &F, name: &str, s: &'a mut [u8]) -> &'a [u8] {
    let Ok(mut file) = File::open(rt, name) else {
        return &[];
    };
    let n = read_full(&mut file, s);
    &s[..n]
}

// The worked record with another start, near its own: the two low bytes of a start stand at offset 6, and the two high ones are the same.
fn with_start(mut s: [u8; RECORD_BYTES], start: u32) -> [u8; RECORD_BYTES] {
    let [low, high, ..] = start.to_le_bytes();
    s[6] = low;
    s[7] = high;
    s
}

// The whole record, cut short, and starting on the last day of a February and on the day after.
fn checks(rt: &impl Print, s: [u8; RECORD_BYTES]) -> io::Result<()> {
    println!(rt; "103 bytes: {}", Shown(check(&s)))?;
    println!(rt; "102 bytes: {}", Shown(check(&s[0..102])))?;
    for start in [14440228, 14440229] {
        let checked = Shown(check(&with_start(s, start)));
        println!(rt; "starts on {start}: {checked}")?;
    }
    Ok(())
}

// The finished chronicle of a record of two countries and two provinces at most, with whose the tag is on the day. The guarantee holds of its rows.
fn finished(
    s: &[u8],
    tag: CountryTag,
    day: Eu4Date,
    nations: &mut [u32],
    entries: &mut [u32],
) -> Result<FinishedAnswer, Refusal>
    ensures { IfOk result (λ answer. FinishedRows s.now tag day answer nations.new entries.new) }
{
    let mut holders = [0u32; 3];
    let mut held = [0u32; 2];
    let mut changes = [0u32; CHANGE_WIDTH * 2];
    let mut bookings = [0u32; BOOKING_WIDTH * MOST_BOOKINGS];
    finish_chronicle(
        s,
        tag,
        day,
        nations,
        entries,
        &mut holders,
        &mut held,
        &mut changes,
        &mut bookings,
    )
}

// Writes the rows of a finished chronicle, and prints all entries that there is room for, those that are not written too.
fn print_entries(
    rt: &impl Print,
    s: &[u8],
    tag: CountryTag,
    day: Eu4Date,
    nations: &mut [u32],
    entries: &mut [u32],
) -> io::Result<()> {
    match finished(s, tag, day, nations, entries) {
        Ok(_) => {
            for row in entries.as_chunks::<ENTRY_WIDTH>().0 {
                println!(rt; "{}", Shown(Entry::read(*row)))?;
            }
            Ok(())
        }
        Err(refusal) => println!(rt; "nations: {refusal}"),
    }
}

// The worked record: its rows, and what the resolver makes of them. It is asked where they are refused too: of cells in which nothing stands.
fn worked(rt: &impl Print, s: &[u8]) -> io::Result<()> {
    let eng = CountryTag::from_bytes_unchecked(b'E', b'N', b'G');
    let gbr = CountryTag::from_bytes_unchecked(b'G', b'B', b'R');
    let before = Eu4Date::from_word_unchecked(14480531);
    let on = Eu4Date::from_word_unchecked(14480601);
    let mut nations = [0u32; NATION_WIDTH * 2];
    let mut entries = [0u32; ENTRY_WIDTH * 3];
    println!(rt; "entries of the worked record:")?;
    print_entries(rt, s, eng, before, &mut nations, &mut entries)?;
    let answer = Shown(resolve(&nations, &entries, gbr, before));
    println!(rt; "resolve GBR on 14480531: {answer}")?;
    let answer = Shown(resolve(&nations, &entries, gbr, on));
    println!(rt; "resolve GBR on 14480601: {answer}")?;
    let answer = Shown(at(before).resolve_at(&nations, &entries, eng, before));
    println!(rt; "set to 14480531, resolve ENG on 14480531: {answer}")?;
    let answer = Shown(at(before).initial_at(&nations, &entries, eng));
    println!(rt; "set to 14480531, initial ENG: {answer}")?;
    let answer = Shown(at(on).resolve_at(&nations, &entries, gbr, on));
    println!(rt; "set to 14480601, resolve GBR on 14480601: {answer}")
}

// The record in which GBR's only slot goes from ENG to GBR.
fn one_slot(rt: &impl Print, s: &[u8]) -> io::Result<()> {
    let gbr = CountryTag::from_bytes_unchecked(b'G', b'B', b'R');
    let day = Eu4Date::from_word_unchecked(14470101);
    let mut nations = [0u32; NATION_WIDTH];
    let mut entries = [0u32; ENTRY_WIDTH * 3];
    println!(rt; "entries with one slot, from ENG to GBR:")?;
    print_entries(rt, s, gbr, day, &mut nations, &mut entries)
}

fn main(rt: HostRuntime) -> io::Result<()> {
    let mut s = [0u8; RECORD_BYTES];
    let record = read_record(&rt, "worked.atl", &mut s);
    worked(&rt, record)?;
    checks(&rt, s)?;
    let record = read_record(&rt, "one_slot.atl", &mut s);
    one_slot(&rt, record)
}
