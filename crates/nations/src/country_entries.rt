//! The entries of one country: its switches by date, merged with its Annexed and Appeared.
ghost use Rattle.std.specs.Prelude.{◌≡◌, length};
ghost use Rattle.nation_tables.specs.Switches.{date_in, target_in};
ghost use Rattle.nations.specs.CountryEntries.{latest_tag};

use crate::country_lives::Lives;
use format::{CountryTag, Entry, EntryKind, Eu4Date};
use nation_tables::{KEY_DATES, KEY_NUMBERS, WORD_SPAN, cell_at};

// The date of a switch, by its key. It is not tested again: the key was made of a date.
fn switch_date(key: u64) -> Eu4Date
    ensures { result.0 ≡ date_in key }
{
    Eu4Date::from_word_unchecked((key / KEY_NUMBERS % KEY_DATES) as u32)
}

// A switch's target, by its key. The word is a tag's, and is not tested again.
fn switch_target(targets: &[u64], key: u64) -> CountryTag
    ensures { result.0 ≡ target_in targets.now key }
{
    let cell = cell_at(targets, (key % KEY_NUMBERS) as usize);
    CountryTag::from_word_unchecked((cell % WORD_SPAN) as u32)
}

// Latest: the target of the last of the switches, or the initial where there is none.
pub(crate) fn latest(run: &[u64], targets: &[u64], initial: CountryTag) -> CountryTag
    ensures { result ≡ latest_tag targets.now run.now initial }
{
    match run.last() {
        Some(key) => switch_target(targets, *key),
        None => initial,
    }
}

// An iterator over a country's entries: the keys of its switches that are left, the targets of all switches, the next of its lives, and those
// behind it.
#[derive(Clone, Copy)]
pub(crate) struct Entries<'a> {
    run: &'a [u64],
    targets: &'a [u64],
    life: Option<Entry>,
    lives: Lives<'a>,
}

impl<'a> Entries<'a> {
    ghost use Rattle.nations.specs.CountryLives.{lives_left};
    ghost use Rattle.nations.specs.CountryEntries.{merged_entries, entries_left};

    // The entries of a run of switches and of lives, by date.
    pub(crate) fn new(run: &'a [u64], targets: &'a [u64], mut lives: Lives<'a>) -> Entries<'a>
        ensures { entries_left result ≡ merged_entries targets.now run.now (lives_left lives.entry) }
    {
        let life = lives.next();
        Entries {
            run,
            targets,
            life,
            lives,
        }
    }

    // How many entries are left.
    pub(crate) fn len(self) -> usize
        ensures { result ≡ length (entries_left self.entry) }
    {
        match self.life {
            Some(_) => self.run.len() + 1 + self.lives.count(),
            None => self.run.len(),
        }
    }
}

impl Iterator for Entries<'_> {
    ghost use Rattle.std.specs.Iterator.{YieldsFirst, item_count};
    ghost use Rattle.nations.specs.CountryEntries.{entries_left};

    type Item = Entry;

    ghost next_gives = { YieldsFirst entries_left };

    ghost remaining = { item_count entries_left };

    // The next switch, or the next of the lives. On one day switches come before the others.
    fn next(&mut self) -> Option<Entry> {
        if let Some((key, rest)) = self.run.split_first() {
            let date = switch_date(*key);
            if self.life.is_none_or(|life| date <= life.date) {
                self.run = rest;
                return Some(Entry {
                    date,
                    kind: EntryKind::TagSwitch(switch_target(self.targets, *key)),
                });
            }
        }
        let life = self.life?;
        self.life = self.lives.next();
        Some(life)
    }
}
