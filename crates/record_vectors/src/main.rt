//! Replays the stored records of vectors.bin, each a length in 32 bits, its expected number and its bytes, and counts the wrong answers.
#![tactic(auto)]

ghost use Rattle.std.specs.Prelude.{◌≡◌, ◌≤◌, not, eqb};
ghost use Rattle.format.specs.RecordNumber.{refusal};
ghost use Rattle.record_vectors.specs.Vectors.{told_length, told_wrong};

use format::Refusal;
use std::io;
use std::io::Read;
use stored_input::{
    Counts, ReadFailed, ReplayNext, Stop, stored_answer, tally_file, try_read_full,
};

// How many bytes the head of a record has: its length, and the number that the list has for it.
const HEAD: usize = 5;

// How many bytes a stored record has at most.
const RECORD_BYTES: usize = 65536;

// Room for the longest record: of a fixed size, since nothing is allocated.
#[derive(Drop)]
struct Records {
    bytes: [u8; RECORD_BYTES],
}

// Whether a record is refused by another number, or by one where the number is 0.
fn is_wrong(s: &[u8], number: u32) -> bool
    ensures { result ≡ not (eqb (refusal s.now) number) }
{
    record::check(s).map_err(Refusal::number) != stored_answer(number, ())
}

// How long a record is, by its head: the third byte tells of more than 16 bits, which no stored one takes.
fn length_of(head: [u8; HEAD]) -> usize
    ensures told { result ≡ told_length head }
    ensures fits { result ≤ RECORD_BYTES }
{
    let [low, high, more, ..] = head;
    if more == 0 {
        usize::from(low) + 256 * usize::from(high)
    } else {
        RECORD_BYTES
    }
}

// What a record comes to.
fn counted(is_wrong: bool) -> Counts
    ensures { result ≡ told_wrong is_wrong }
{
    Counts {
        wrong: usize::from(is_wrong),
        ..Counts::default()
    }
}

impl ReplayNext for Records {
    ghost use Rattle.std.specs.Prelude.{◌≡◌, []};
    ghost use Rattle.record_vectors.specs.Vectors.{ReadRecord};

    ghost comes_to = { ReadRecord };

    ghost leaves = { λ rest. rest ≡ [] };

    // A record that the list breaks off in is a wrong one, in its head too, and so is one whose reading fails.
    fn replay_next<R: Read>(&mut self, list: &mut R) -> Result<Option<Counts>, Stop> {
        let mut head = [0u8; HEAD];
        match try_read_full(list, &mut head) {
            Ok(HEAD) => {}
            Ok(0) => return Ok(None),
            Err(ReadFailed { after: 0 }) => return Err(Stop::Unread),
            _ => return Ok(Some(counted(true))),
        }
        let s = &mut self.bytes[..length_of(head)];
        if try_read_full(list, s) != Ok(s.len()) {
            return Ok(Some(counted(true)));
        }
        let [.., number] = head;
        Ok(Some(counted(is_wrong(s, u32::from(number)))))
    }
}

// What is printed no promise tells: no clause of the host's output says which bytes reach it. It is held to the file stdout.
fn main(rt: HostRuntime) -> io::Result<()> {
    let mut records = Records {
        bytes: [0; RECORD_BYTES],
    };
    let all = tally_file(&rt, "vectors.bin", &mut records).unwrap_or_default();
    println!(rt; "{} records, {} wrong", all.cases, all.counts.wrong)
}
