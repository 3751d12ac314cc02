//! History rows: read one by one or by their number, from 0, written, and tested for their shape. A number past the last row gives a row of zeros.
ghost use Rattle.std.specs.Prelude.{◌≡◌, true, List, [], length, IsTrue, ◌↔◌, EachIndex, slice_index_or};
ghost use Rattle.std.proofs.Common.{lit<};
ghost use Rattle.rules.specs.Chronicle.{Nation};
ghost use Rattle.rules.specs.HistoryRows.{history_row_of, history_row_words, history_rows_in, history_shaped, histories_shaped};
ghost use Rattle.rows.specs.HistoryAt.{history_row_at};

use crate::lent_rows::{LentRows, Row, ToRow, row_at};
use format::{CountryTag, HistoryRow};

/// How many words a history row has.
pub const HISTORY_WIDTH: usize = 7;

/// The history rows of lent words.
pub type Histories<'a> = LentRows<'a, HistoryRow, HISTORY_WIDTH>;

// Words as they stand: `is_history_shaped` tests the tags and the nation.
impl Row<HISTORY_WIDTH> for HistoryRow {
    ghost told = { history_row_of };

    ghost some = { lit< tt };

    ghost narrow = { lit< tt };

    fn read(words: [u32; HISTORY_WIDTH]) -> HistoryRow
        ensures { result ≡ history_row_of words }
    {
        let [initial, latest, stored, nation, human, first, count] = words;
        HistoryRow {
            initial: CountryTag::from_word_unchecked(initial),
            latest: CountryTag::from_word_unchecked(latest),
            stored: CountryTag::from_word_unchecked(stored),
            nation,
            human,
            first,
            count,
        }
    }
}

// The words of a history row, in that order.
impl ToRow<HISTORY_WIDTH> for HistoryRow {
    ghost words = { history_row_words };

    fn to_row(self) -> [u32; HISTORY_WIDTH] {
        [
            u32::from(self.initial),
            u32::from(self.latest),
            u32::from(self.stored),
            self.nation,
            self.human,
            self.first,
            self.count,
        ]
    }
}

/// How many history rows the words make. Words behind the last whole row count for nothing.
#[tactic(auto, using(crate::proofs::HistoryLaws::history_rows_count))]
pub fn history_count(histories: &[u32]) -> usize
    ensures { result ≡ length (history_rows_in histories.now) }
{
    histories.len() / HISTORY_WIDTH
}

/// History row number i, from 0. Its words are tested by `is_history_shaped` alone.
#[tactic(auto, using(crate::proofs::HistoryLaws::history_here))]
pub fn history_row_at(histories: &[u32], i: usize) -> HistoryRow
    ensures { result ≡ history_row_at histories.now i }
{
    row_at(histories, i)
}

// Whether a row's first three words are tags, and its nation is none or one of so many.
fn row_shaped(row: &[u32; HISTORY_WIDTH], nations: usize) -> bool
    ensures { result ≡ history_shaped nations (history_row_of row.now) }
{
    let row = HistoryRow::read(*row);
    row.initial.is_valid()
        & row.latest.is_valid()
        & row.stored.is_valid()
        & (row.nation as usize <= nations)
}

// Whether every history row is shaped.
fn rows_shaped(rows: &[[u32; HISTORY_WIDTH]], nations: usize) -> bool
    ensures { IsTrue result ↔ EachIndex rows.now (λ k. history_shaped nations (history_row_of (slice_index_or rows.now k [])) ≡ true) }
{
    rows.iter().all(|row| row_shaped(row, nations))
}

/// Whether history words, of any length, are well shaped beside so many nations.
pub fn is_history_shaped(histories: &[u32], nations: usize) -> bool
    ensures { (ns : List Nation) → nations ≡ length ns → result ≡ histories_shaped ns histories.now }
{
    let (rows, over) = histories.as_chunks::<HISTORY_WIDTH>();
    over.is_empty() && rows_shaped(rows, nations)
}
