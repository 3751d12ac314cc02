//! The entries that a nation's row counts, by an iterator.
ghost use Rattle.std.specs.Prelude.{◌≡◌, []};
ghost use Rattle.std.specs.Iterator.{YieldsFirst, item_count};
ghost use Rattle.rows.specs.RowAt.{entries_at, counted_left};

use crate::nation_rows::entry_at;
use format::{Entry, NationRow};

/// An iterator over the entries that a nation's row counts, by their numbers: of any words a row may count entries past the last one, which read as
/// zeros.
/// Two numbers and no `Range`, which is not `Copy` as this iterator is.
#[derive(Clone, Copy)]
pub struct NationEntries<'a> {
    pub(crate) words: &'a [u32],
    pub(crate) next: usize,
    pub(crate) end: usize,
}

#[tactic(auto, using(crate::proofs::RowAtLaws::counted_entries))]
impl<'a> NationEntries<'a> {
    /// The entries of the words that a nation's row counts.
    pub fn new(nation: NationRow, words: &'a [u32]) -> NationEntries<'a>
        ensures { counted_left result ≡ entries_at words.now nation.first nation.count }
    {
        let next = nation.first as usize;
        NationEntries {
            words,
            next,
            end: next + nation.count as usize,
        }
    }
}

#[tactic(auto, using(crate::proofs::RowAtLaws::counted_entries))]
impl NationEntries<'_> {
    /// No entries, as before a first nation.
    pub fn none() -> Self
        ensures { counted_left result ≡ [] }
    {
        NationEntries {
            words: &[],
            next: 0,
            end: 0,
        }
    }
}

#[tactic(auto, using(crate::proofs::RowAtLaws::counted_entries))]
impl Iterator for NationEntries<'_> {
    type Item = Entry;

    ghost next_gives = { YieldsFirst counted_left };

    ghost remaining = { item_count counted_left };

    fn next(&mut self) -> Option<Entry> {
        let number = self.next;
        if self.end <= number {
            return None;
        }
        self.next = number + 1;
        Some(entry_at(self.words, number))
    }
}
