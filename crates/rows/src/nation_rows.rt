//! Nation rows and entry rows: their widths, read and written, and by their number.
ghost use Rattle.std.specs.Prelude.{◌≡◌, List, ℕ, length};
ghost use Rattle.std.proofs.Common.{lit<};
ghost use Rattle.rules.specs.NationRows.{nation_rows_in, nation_row_of, nation_row_words, entry_row, entry_row_of, entry_row_words, entry_of, kind_of};
ghost use Rattle.rows.specs.RowAt.{nation_row_at, entry_at, entry_told};

use crate::lent_rows::{LentRows, Row, ToRow, row_at};
use format::{CountryTag, Entry, EntryKind, Eu4Date, NationRow};

/// How many words a nation row has.
pub const NATION_WIDTH: usize = 5;

/// How many words an entry row has.
pub const ENTRY_WIDTH: usize = 3;

/// The nation rows of lent words.
pub type Nations<'a> = LentRows<'a, NationRow, NATION_WIDTH>;

// Its tags are tested by `is_well_shaped` alone.
impl Row<NATION_WIDTH> for NationRow {
    ghost told = { nation_row_of };

    ghost some = { lit< tt };

    ghost narrow = { lit< tt };

    fn read(words: [u32; NATION_WIDTH]) -> NationRow
        ensures { result ≡ nation_row_of words }
    {
        let [initial, latest, stored, first, count] = words;
        NationRow {
            initial: CountryTag::from_word_unchecked(initial),
            latest: CountryTag::from_word_unchecked(latest),
            stored: CountryTag::from_word_unchecked(stored),
            first,
            count,
        }
    }
}

// The words of a nation row: initial, latest, stored, first entry, how many.
impl ToRow<NATION_WIDTH> for NationRow {
    ghost words = { nation_row_words };

    fn to_row(self) -> [u32; NATION_WIDTH] {
        [
            u32::from(self.initial),
            u32::from(self.latest),
            u32::from(self.stored),
            self.first,
            self.count,
        ]
    }
}

// What an entry row's words tell, whatever they are: `is_well_shaped` tests the date, the kind and the target.
impl Row<ENTRY_WIDTH> for Entry {
    ghost told = { entry_told };

    ghost some = { lit< tt };

    ghost narrow = { lit< tt };

    fn read(words: [u32; ENTRY_WIDTH]) -> Entry
        ensures { result ≡ entry_told words }
    {
        let [date, kind, target] = words;
        Entry {
            date: Eu4Date::from_word_unchecked(date),
            kind: kind_read(kind, target),
        }
    }
}

// The words of an entry row: date, kind, target.
impl ToRow<ENTRY_WIDTH> for Entry {
    ghost words = { λ entry. entry_row_words (entry_row entry) };

    fn to_row(self) -> [u32; ENTRY_WIDTH] {
        let date = u32::from(self.date);
        match self.kind {
            EntryKind::TagSwitch(target) => [date, 0, u32::from(target)],
            EntryKind::Appeared => [date, 1, 0],
            EntryKind::Annexed => [date, 2, 0],
        }
    }
}

// What two words of a row tell, in which kinds are numbers. One above 2 reads as Annexed; no well-shaped chronicle has one.
fn kind_read(kind: u32, target: u32) -> EntryKind
    ensures { result ≡ kind_of kind target }
{
    match kind {
        0 => EntryKind::TagSwitch(CountryTag::from_word_unchecked(target)),
        1 => EntryKind::Appeared,
        _ => EntryKind::Annexed,
    }
}

/// How many nation rows the words make. Words behind the last whole row count for nothing.
#[tactic(auto, using(crate::proofs::RowAtLaws::nation_rows_count))]
pub fn nation_count(nations: &[u32]) -> usize
    ensures { result ≡ length (nation_rows_in nations.now) }
{
    nations.len() / NATION_WIDTH
}

/// Nation row number i, from 0. Its tags are tested by `is_well_shaped` alone.
#[tactic(auto, using(crate::proofs::RowAtLaws::nation_here))]
pub fn nation_row_at(nations: &[u32], i: usize) -> NationRow
    ensures { result ≡ nation_row_at nations.now i }
{
    row_at(nations, i)
}

// Entry number i.
#[tactic(auto, using(crate::proofs::RowAtLaws::entry_here))]
pub(crate) fn entry_at(entries: &[u32], i: usize) -> Entry
    ensures { result ≡ entry_at entries.now i }
{
    row_at(entries, i)
}
