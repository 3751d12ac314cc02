//! Reading inputs into buffers, and replaying the lists of cases that stand in stored files.
#![tactic(auto)]

mod numbered;
mod numbers;
mod replay;
#[cfg(test)]
mod tests;

ghost use Rattle.std.specs.Prelude.{◌<◌, ◌≤◌, length, IfOk, IfErr, IfSome};
ghost use Rattle.std.specs.Io.KnownBytes.{IsAtEnd};
ghost use Rattle.stored_input.specs.Reading.{BeginsRead, ReadsAll};

pub use numbered::{Replay, replay_file, replay_list};
pub use numbers::{
    BrokenOff, Stop, Stored, StoredToEnd, next_number, read_numbers, read_part, stored_answer,
    take_part,
};
pub use replay::{Counts, ReplayNext, Tally, tally_file, tally_list};
use std::fs::File;
use std::io::Read;
use std::rt::Files;

/// A read that failed, behind so many bytes that came before.
#[derive(Clone, Copy, Debug, PartialEq, Eq)]
pub struct ReadFailed {
    pub after: usize,
}

/// Reads until buf is full, the input ends or a read fails, and returns how many bytes it put at the start of buf. A loop of its own: `read_exact`
/// does not tell how far it came.
pub fn try_read_full<R: Read>(input: &mut R, buf: &mut [u8]) -> Result<usize, ReadFailed>
    ensures read { IfOk result (λ n. BeginsRead (R.remaining input.old) (R.remaining input.new) buf.new n) }
    ensures end { IfOk result (λ n. n < length buf.new → IsAtEnd (R.remaining input.new)) }
    ensures failed { IfErr result (λ e. (e.after < length buf.new)
        × BeginsRead (R.remaining input.old) (R.remaining input.new) buf.new e.after) }
{
    let mut done = 0;
    while done < buf.len() {
        // The error is made anew: it tells how far the reading came.
        let Ok(n) = input.read(&mut buf[done..]) else {
            return Err(ReadFailed { after: done });
        };
        if n == 0 {
            break;
        }
        done += n;
    }
    Ok(done)
}

/// Reads until buf is full, the input ends or a read fails, which counts as its end; returns how many bytes it put at the start of buf.
pub fn read_full<R: Read>(input: &mut R, buf: &mut [u8]) -> usize
    ensures { BeginsRead (R.remaining input.old) (R.remaining input.new) buf.new result }
{
    try_read_full(input, buf).unwrap_or_else(|failed| failed.after)
}

/// Reads a file into a buffer, as far as it has room: nothing of one that cannot be opened or read. Which file a name opens, and what it holds,
/// no clause of `Files` tells: so the promise is of some file that was opened.
pub fn read_file<'a, F: Files>(rt: &F, name: &str, buf: &'a mut [u8]) -> Option<&'a [u8]>
    ensures fits { IfSome result (λ s. length s.now ≤ length buf.old) }
    ensures read { IfSome result (λ s. (file : F.File) × (after : F.File)
        × ReadsAll (F.File.remaining file) (F.File.remaining after) (length buf.old) s.now) }
{
    let mut file = File::open(rt, name).ok()?;
    let n = try_read_full(&mut file, buf).ok()?;
    Some(&buf[..n])
}
