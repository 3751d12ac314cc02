//! Replaying a stored list, each case of which begins with a number.
ghost use Rattle.std.specs.Prelude.{◌≡◌, ◌≤◌, ℕ, List, IfOk, IfSome};
ghost use Rattle.std.specs.Io.KnownBytes.{Consumes};
ghost use Rattle.stored_input.specs.Replaying.{ListReplayed};
ghost use Rattle.stored_input.specs.declared.replay.TheConstants.{MOST_CASES};

use crate::replay::{Counts, ReplayNext, Tally, tally_file, tally_list};
use crate::{BrokenOff, Stop, next_number};
use std::io::Read;
use std::rt::Files;

/// Cases of one kind, each of which begins with a number, with what they need to be read and answered.
pub trait Replay {
    ghost use Rattle.stored_input.specs.declared.replay.Counts.{Counts};

    // What a case comes to, by the number that it begins with and the bytes behind it.
    ghost comes_to: { ℕ → List ℕ → Counts → Type 0 };

    // Reads the rest of a case that begins with a number, and holds it against what the code answers. Of an error nothing is promised: a read
    // may fail at any time.
    fn replay<R: Read>(&mut self, first: u32, list: &mut R) -> Result<Counts, BrokenOff>
        ensures { IfOk result (λ counts. (bytes : List ℕ)
            × Consumes (R.remaining list.old) (R.remaining list.new) bytes × comes_to first bytes counts) };
}

// Cases that begin with a number, as cases that are told by all their bytes.
#[derive(Drop)]
struct NumberedCases<'a, C> {
    cases: &'a mut C,
}

impl<C: Replay> ReplayNext for NumberedCases<'_, C> {
    ghost use Rattle.std.specs.Prelude.{◌≡◌, []};
    ghost use Rattle.stored_input.specs.Tallying.{NumberedCase};

    ghost comes_to = { NumberedCase C.comes_to };

    ghost leaves = { λ rest. rest ≡ [] };

    fn replay_next<R: Read>(&mut self, list: &mut R) -> Result<Option<Counts>, Stop> {
        match next_number(list)? {
            Some(first) => Ok(Some(self.cases.replay(first, list)?)),
            None => Ok(None),
        }
    }
}

/// Replays the cases of a list, each of which begins with a number, 100,000 at most. A list that breaks off, or cannot be read on, ends there, with one
/// wrong answer more.
pub fn replay_list<C: Replay, R: Read>(list: &mut R, cases: &mut C) -> Tally
    ensures most { result.cases ≤ MOST_CASES }
    ensures counted { ListReplayed C.comes_to MOST_CASES (R.remaining list.old) (R.remaining list.new) result }
{
    let all = tally_list(list, &mut NumberedCases { cases });
    all.unread_as_broken()
}

/// Replays the cases of a stored file as `replay_list` does those of a list, nothing of one that cannot be opened. Of which file a name opens, and of what it
/// holds, no clause of `Files` tells: so the promise is of some file that was opened.
pub fn replay_file<C: Replay, F: Files>(rt: &F, name: &str, cases: &mut C) -> Option<Tally>
    ensures { IfSome result (λ all. (all.cases ≤ MOST_CASES) × (file : F.File) × (after : F.File)
        × ListReplayed C.comes_to MOST_CASES (F.File.remaining file) (F.File.remaining after) all) }
{
    let all = tally_file(rt, name, &mut NumberedCases { cases })?;
    Some(all.unread_as_broken())
}
