//! The rows that other calls write, or are asked by: their widths, and their words.
ghost use Rattle.std.specs.Prelude.{◌≡◌};
ghost use Rattle.std.proofs.Common.{lit<};
ghost use Rattle.rules.specs.Changes.{change_words};
ghost use Rattle.rules.specs.Ledger.{point_words};
ghost use Rattle.rules.specs.Players.{player_words};
ghost use Rattle.rules.specs.Questions.{question_of};
ghost use Rattle.rows.specs.RowAt.{change_told};

use crate::lent_rows::{Row, ToRow};
use format::{CountryTag, Eu4Date, LedgerPoint, OwnerChange, Player, ProvinceId, Question};

/// How many words an owner change has.
pub const CHANGE_WIDTH: usize = 4;

/// How many words a point of a ledger has.
pub const LEDGER_WIDTH: usize = 3;

/// How many words a player has.
pub const PLAYER_WIDTH: usize = 2;

/// How many words a war's booking has.
pub const BOOKING_WIDTH: usize = 3;

/// How many words a question has; an answer to it has as many.
pub const QUESTION_WIDTH: usize = 2;

// Date, id, from, to.
impl ToRow<CHANGE_WIDTH> for OwnerChange {
    ghost words = { change_words };

    fn to_row(self) -> [u32; CHANGE_WIDTH] {
        [
            u32::from(self.date),
            u32::from(self.id),
            u32::from(self.from),
            u32::from(self.to),
        ]
    }
}

// A change is read back from where it was written, until all are in order.
impl Row<CHANGE_WIDTH> for OwnerChange {
    ghost told = { change_told };

    ghost some = { lit< tt };

    ghost narrow = { lit< tt };

    fn read(words: [u32; CHANGE_WIDTH]) -> OwnerChange
        ensures { result ≡ change_told words }
    {
        let [date, id, from, to] = words;
        OwnerChange {
            date: Eu4Date::from_word_unchecked(date),
            id: ProvinceId::from_word_unchecked(id),
            from: CountryTag::from_word_unchecked(from),
            to: CountryTag::from_word_unchecked(to),
        }
    }
}

// Tag, year, value.
impl ToRow<LEDGER_WIDTH> for LedgerPoint {
    ghost words = { point_words };

    fn to_row(self) -> [u32; LEDGER_WIDTH] {
        [u32::from(self.tag), self.year, self.value]
    }
}

// The number of the name, the tag.
impl ToRow<PLAYER_WIDTH> for Player {
    ghost words = { player_words };

    fn to_row(self) -> [u32; PLAYER_WIDTH] {
        [self.name, u32::from(self.tag)]
    }
}

// Tag, date: tested by whoever asks for the answers.
impl Row<QUESTION_WIDTH> for Question {
    ghost told = { question_of };

    ghost some = { lit< tt };

    ghost narrow = { lit< tt };

    fn read(words: [u32; QUESTION_WIDTH]) -> Question
        ensures { result ≡ question_of words }
    {
        let [tag, date] = words;
        Question {
            tag: CountryTag::from_word_unchecked(tag),
            date: Eu4Date::from_word_unchecked(date),
        }
    }
}
