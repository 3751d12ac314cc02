//! Replaying a stored list, case by case.
ghost use Rattle.std.specs.Prelude.{◌≡◌, ◌≤◌, ℕ, List, IfOk, IfSome, MatchOption};
ghost use Rattle.std.specs.Io.KnownBytes.{Consumes};
ghost use Rattle.stored_input.specs.Replaying.{plus, Ends};
ghost use Rattle.stored_input.specs.Tallying.{told_as_broken, ListTallied};

use crate::Stop;
use std::fs::File;
use std::io::Read;
use std::rt::Files;

// The most cases that are replayed.
pub(crate) const MOST_CASES: u64 = 100000;

/// What a case comes to, or several: how many questions it asks one at a time, and how many answers are other ones than stored, wrong, or
/// noticed where they were falsified in the list.
#[derive(Clone, Copy, Debug, Default, PartialEq, Eq)]
pub struct Counts {
    pub questions: usize,
    pub wrong: usize,
    pub noticed: usize,
}

// What a list that breaks off comes to: one wrong answer.
const BROKEN_OFF: Counts = Counts {
    questions: 0,
    wrong: 1,
    noticed: 0,
};

/// What the cases of a list come to.
#[derive(Clone, Copy, Debug, Default, PartialEq, Eq)]
pub struct Tally {
    pub cases: u64,
    pub counts: Counts,

    /// Whether a read failed behind these cases, so that there may be more. `replay_list` and `replay_file` never say so: they count such a list as
    /// one that breaks off.
    pub is_unread: bool,
}

/// Cases of one kind, with what they need to be read and answered.
pub trait ReplayNext {
    ghost use Rattle.stored_input.specs.declared.replay.Counts.{Counts};

    // What a case comes to, by its bytes.
    ghost comes_to: { List ℕ → Counts → Type 0 };

    // What may be left at the end of a list behind its last case.
    ghost leaves: { List ℕ → Type 0 };

    // Reads the next case, nothing at the list's end, and holds it against what the code answers. Of an error nothing is promised: a read may fail
    // at any time.
    fn replay_next<R: Read>(&mut self, list: &mut R) -> Result<Option<Counts>, Stop>
        ensures { IfOk result (λ r. MatchOption r
            (Ends leaves (R.remaining list.old) (R.remaining list.new))
            (λ counts. (bytes : List ℕ)
            × Consumes (R.remaining list.old) (R.remaining list.new) bytes × comes_to bytes counts)) };
}

impl Counts {
    // The counts of both. One that would pass the type's top stays there.
    fn plus(self, other: Counts) -> Counts
        ensures { result ≡ plus self other }
    {
        Counts {
            questions: self.questions.saturating_add(other.questions),
            wrong: self.wrong.saturating_add(other.wrong),
            noticed: self.noticed.saturating_add(other.noticed),
        }
    }
}

impl Tally {
    // The tally of a list, where one that cannot be read on is told as one that breaks off.
    pub(crate) fn unread_as_broken(self) -> Tally
        ensures { result ≡ told_as_broken self }
    {
        if self.is_unread {
            return Tally {
                counts: self.counts.plus(BROKEN_OFF),
                is_unread: false,
                ..self
            };
        }
        self
    }
}

/// Replays the cases of a list, 100,000 at most. A list that breaks off ends there, with one wrong answer more; one that cannot be read on in front of
/// a case ends there with none.
pub fn tally_list<C: ReplayNext, R: Read>(list: &mut R, cases: &mut C) -> Tally
    ensures most { result.cases ≤ MOST_CASES }
    ensures counted { ListTallied C.comes_to C.leaves MOST_CASES (R.remaining list.old) (R.remaining list.new) result }
{
    let mut all = Tally::default();
    for _ in 0..MOST_CASES {
        match cases.replay_next(list) {
            Ok(Some(case)) => {
                all.cases += 1;
                all.counts = all.counts.plus(case);
            }
            Ok(None) => break,
            Err(Stop::BrokenOff) => {
                all.counts = all.counts.plus(BROKEN_OFF);
                break;
            }
            Err(Stop::Unread) => {
                all.is_unread = true;
                break;
            }
        }
    }
    all
}

/// Replays the cases of a stored file, nothing of one that cannot be opened. Of which file a name opens, and of what it holds, no clause of
/// `Files` tells: so the promise is of some file that was opened.
pub fn tally_file<C: ReplayNext, F: Files>(rt: &F, name: &str, cases: &mut C) -> Option<Tally>
    ensures { IfSome result (λ all. (all.cases ≤ MOST_CASES) × (file : F.File) × (after : F.File)
        × ListTallied C.comes_to C.leaves MOST_CASES (F.File.remaining file) (F.File.remaining after) all) }
{
    let mut list = File::open(rt, name).ok()?;
    Some(tally_list(&mut list, cases))
}
