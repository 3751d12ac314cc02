//! The Annexed and Appeared of one country, told one by one along its two chains of changes.
ghost use Rattle.std.specs.Prelude.{◌≡◌, true, ◌||◌, ◌+◌, ◌≤◌, ◌<◌, ltb, length, get_or};
ghost use Rattle.nation_tables.specs.Layout.{short_span, no_change};
ghost use Rattle.nation_tables.specs.Turning.{losses, gains, key_date};
ghost use Rattle.nations.specs.Walks.{Chained};

use crate::tables::NationTables;
use format::{Entry, EntryKind, Eu4Date};
use nation_tables::{LossGain, NO_CHANGE};
use owner_changes::ChangeKey;

// An iterator over a country's lives: keys and links of the changes, the next changes at which it loses and gains a slot, and the slots that
// it holds now.
#[derive(Clone, Copy)]
pub(crate) struct Lives<'a> {
    keys: &'a [u64],
    turns: &'a [LossGain],
    start: Eu4Date,
    next: LossGain,
    held: u32,
    ghost chained: { Chained keys.now (losses turns.now) (gains turns.now) },
    ghost light: { held ≤ next.gain + short_span },
}

// The date of change k.
fn change_date(keys: &[u64], k: usize) -> Eu4Date
    requires { k < length keys.now }
    ensures { result ≡ key_date (get_or keys.now k 0) }
{
    ChangeKey(keys[k]).date()
}

impl<'a> Lives<'a> {
    ghost use Rattle.nations.specs.Reading.{cells_in};
    ghost use Rattle.nations.specs.ListedNations.{walk_of, lived_of};
    ghost use Rattle.nations.specs.CountryLives.{walk_in, lives_left, Steps};

    // The lives of a row's country, from the first change of each of its two chains.
    pub(crate) fn new(tables: &NationTables<'a>, row: usize) -> Lives<'a>
        requires { (row < length tables.now.firsts.now) × (row < length tables.now.started.now) }
        ensures walk { walk_in result ≡ walk_of (cells_in tables.now) row }
        ensures lives { lives_left result ≡ (lived_of (cells_in tables.now) row).entries }
    {
        Lives {
            keys: tables.keys,
            turns: tables.turns,
            start: tables.start,
            next: tables.firsts[row],
            held: tables.started[row],
        }
    }

    // Whether the country holds a slot now or gains one later.
    pub(crate) fn holds_ever(&self) -> bool
        ensures { result ≡ (ltb 0 self.now.held || ltb self.now.next.gain no_change) }
    {
        (0 < self.held) | (self.next.gain < NO_CHANGE)
    }

    // Whether a change of the country is still to come.
    fn more(&self) -> bool
        ensures { result ≡ (ltb self.now.next.loss (length self.now.keys.now) || ltb self.now.next.gain (length self.now.keys.now)) }
    {
        let n = self.keys.len();
        (usize::from(self.next.loss) < n) | (usize::from(self.next.gain) < n)
    }

    // The country loses a slot; at 0 it is annexed.
    fn lose_slot(&mut self) -> Option<Entry>
        requires { (self.old.next.loss < length self.old.keys.now) × (self.old.next.loss ≤ self.old.next.gain) }
        ensures { Steps self.old result self.new }
    {
        let k = usize::from(self.next.loss);
        self.next.loss = self.turns[k].loss;
        self.held = self.held.saturating_sub(1);
        if 0 < self.held {
            return None;
        }
        Some(Entry {
            date: change_date(self.keys, k),
            kind: EntryKind::Annexed,
        })
    }

    // The country gains a slot. It appears where it had none before, on a day behind the start.
    fn gain_slot(&mut self) -> Option<Entry>
        requires { (self.old.next.gain < length self.old.keys.now) × (self.old.next.gain < self.old.next.loss) }
        ensures { Steps self.old result self.new }
    {
        let k = usize::from(self.next.gain);
        let date = change_date(self.keys, k);
        let appears = (self.held == 0) & (self.start < date);
        self.next.gain = self.turns[k].gain;
        self.held += 1;
        if appears {
            return Some(Entry {
                date,
                kind: EntryKind::Appeared,
            });
        }
        None
    }

    // The next change of the country. At one that takes a slot and gives one the loss comes first.
    fn turn(&mut self) -> Option<Entry>
        requires { (ltb self.old.next.loss (length self.old.keys.now) || ltb self.old.next.gain (length self.old.keys.now)) ≡ true }
        ensures { Steps self.old result self.new }
    {
        if self.next.loss <= self.next.gain {
            return self.lose_slot();
        }
        self.gain_slot()
    }
}

impl Iterator for Lives<'_> {
    ghost use Rattle.std.specs.Iterator.{YieldsFirst, item_count};
    ghost use Rattle.nations.specs.CountryLives.{lives_left};

    type Item = Entry;

    ghost next_gives = { YieldsFirst lives_left };

    ghost remaining = { item_count lives_left };

    // No `for`: a step takes the next change of one of two chains, and asks that one is left.
    fn next(&mut self) -> Option<Entry> {
        while self.more() {
            if let Some(entry) = self.turn() {
                return Some(entry);
            }
        }
        None
    }
}
