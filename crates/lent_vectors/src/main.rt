//! Replays what lent.bin has stored about lent chronicles: what the Rust answers to questions, one at a time and many at once, which wars it
//! books, its ledgers, players, histories and starting countries, with what is refused. Counts the wrong answers, and those that were
//! falsified in the list and noticed. The list is made by host/oracle's lent_vectors; its numbers take 32 bits each, low byte first. A vector
//! has the count of its numbers, then its head: its kind, whether an answer is falsified, how many words of nations and of entries, questions
//! asked one at a time, words besides, cells lent for the answer, the number of its refusal or 0, words of the answer, and bytes of the
//! record; then these. By kind:
//! 0 questions; the words besides are those asked at once. One asked at a time has seven: form, day, tag, date, refusal's number or 0,
//!   current, stored.
//! 1 war bookings.
//! 2 a nation's ledger; besides: its number, how many rows to count at most, and what counting them gives, a refusal's number or 0 and rows.
//! 3 the ledgers of all nations; besides: cells lent for counts, then the counts.
//! 4 players.
//! 5 histories; besides: cells lent for names, then the names.
//! 6 a starting country; besides: the history words.
#![tactic(auto)]

mod answers;
mod asked;
mod single;
mod vector;

use std::io;
use std::io::Read;
use stored_input::{
    BrokenOff, Counts, ReplayNext, Stop, read_numbers, read_part, tally_file, try_read_full,
};
use vector::{HEAD, Vector};

// How many numbers a vector has at most, its head among them, and how many bytes its record. Where a list tells of more, it is read as if it told of so
// many.
const VECTOR_NUMBERS: usize = 4096;

const RECORD_BYTES: usize = 4096;

// Room for the record of a vector, and for its numbers: of a fixed size, since nothing is allocated.
#[derive(Drop)]
struct Vectors {
    record: [u8; RECORD_BYTES],
    numbers: [u32; VECTOR_NUMBERS],
}

impl ReplayNext for Vectors {
    ghost use Rattle.std.specs.Prelude.{◌<◌, ◌≤◌, length};

    // Of its cases it is promised that they have a count and a head: each is of one of seven kinds, and what they come to is held to the file stdout.
    ghost comes_to = { λ bytes _. 44 ≤ length bytes };

    ghost leaves = { λ rest. length rest < 4 };

    // A list whose next number breaks off, or cannot be read, has no vector more.
    fn replay_next<R: Read>(&mut self, list: &mut R) -> Result<Option<Counts>, Stop> {
        let mut count = [0u8; 4];
        match try_read_full(list, &mut count) {
            Ok(4) => {}
            Ok(_) => return Ok(None),
            Err(_) => return Err(Stop::Unread),
        }
        let n = (u32::from_le_bytes(count) as usize).min(VECTOR_NUMBERS);
        let behind = n.checked_sub(HEAD).ok_or(BrokenOff)?;
        let head: [u32; HEAD] = read_numbers(list)?;
        let numbers = read_part(list, behind, &mut self.numbers)?;
        let [.., bytes] = head;
        let bytes = (bytes as usize).min(RECORD_BYTES);
        let record = read_part(list, bytes, &mut self.record)?;
        Ok(Some(Vector::new(head, numbers, record)?.replayed()))
    }
}

// What is printed no promise tells: no clause of the host's output says which bytes reach it. It is held to the file stdout.
fn main(rt: HostRuntime) -> io::Result<()> {
    let mut vectors = Vectors {
        record: [0; RECORD_BYTES],
        numbers: [0; VECTOR_NUMBERS],
    };
    let all = tally_file(&rt, "lent.bin", &mut vectors).unwrap_or_default();
    let counts = all.counts;
    print!(rt;
        "{} vectors, {} questions one at a time, ",
        all.cases, counts.questions
    )?;
    println!(rt;
        "{} wrong, {} falsified and noticed",
        counts.wrong, counts.noticed
    )
}
