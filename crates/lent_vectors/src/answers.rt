//! The answers to a vector, held against the stored ones.
use crate::asked::{Asked, Besides};
use crate::single::is_answered_singly;
use crate::vector::Vector;
use format::{CountryTag, HistoryCounts, Refusal};
use rows::{BOOKING_WIDTH, HISTORY_WIDTH, LEDGER_WIDTH, PLAYER_WIDTH, QUESTION_WIDTH};
use stored_input::{Counts, stored_answer};

// How many cells are lent at most.
const MOST_CELLS: usize = 4096;

// What stands in the cells before they are lent.
const BEFORE: u32 = 7;

// Whether cells begin with the words, and are behind them as they were.
fn cells_hold<T: Copy + PartialEq + From<u32>>(cells: &[T], words: &[u32]) -> bool {
    let (front, behind) = cells.split_at(words.len().min(cells.len()));
    let before = T::from(BEFORE);
    front
        .iter()
        .zip(words)
        .all(|(cell, word)| *cell == T::from(*word))
        && behind.iter().all(|cell| *cell == before)
}

impl<'a> Vector<'a> {
    // Whether a call, lent the cells, gives the value or the stored refusal, and leaves the stored words in them, of a refusal too.
    fn answers<A, F>(&self, value: A, call: F) -> bool
    where
        A: PartialEq + Drop,
        F: FnOnce(&mut [u32]) -> Result<A, Refusal>,
        requires { F.IsAlwaysCallable call }
    {
        let mut cells = [BEFORE; MOST_CELLS];
        let room = self.room.min(MOST_CELLS);
        let told = call(&mut cells[..room]).map_err(Refusal::number);
        told == stored_answer(self.number, value) && cells_hold(&cells, self.words)
    }

    // The same of a call that is lent cells besides.
    fn answers_besides<A, T, F>(
        &self,
        value: A,
        besides: Besides<'_>,
        cells: &mut [T],
        call: F,
    ) -> bool
    where
        A: PartialEq + Drop,
        T: Copy + PartialEq + From<u32>,
        F: FnOnce(&mut [u32], &mut [T]) -> Result<A, Refusal>,
        requires { F.IsAlwaysCallable call }
    {
        let room = besides.room.min(cells.len());
        let lent = &mut cells[..room];
        self.answers(value, |out| call(out, lent)) && cells_hold(cells, besides.words)
    }

    // Whether what is stored can be the answer of a ledger: a refusal has no row.
    fn can_be_ledger(&self) -> bool {
        self.number == 0 || self.words.len() < LEDGER_WIDTH
    }

    // Whether the history words have the stored starting country, or none. A refusal has none.
    fn starts(&self, histories: &[u32]) -> bool {
        let told = chronicle::starting_country(histories, self.nations, self.entries);
        let most = usize::from(self.number == 0);
        let word = self.words.first();
        let tag = word.map(|word| CountryTag::from_word_unchecked(*word));
        self.words.len() <= most && told.map_err(Refusal::number) == stored_answer(self.number, tag)
    }

    // Whether the ledgers of all nations are answered as stored. These two are functions, for cells besides are cleared where a function begins.
    fn answers_all_ledgers(&self, besides: Besides<'_>) -> bool {
        let (record, nations, entries) = (self.record, self.nations, self.entries);
        let rows = self.words.len() / LEDGER_WIDTH;
        let mut cells = [u64::from(BEFORE); MOST_CELLS];
        self.can_be_ledger()
            && self.answers_besides(rows, besides, &mut cells, |out, counts| {
                chronicle::nation_ledgers(record, nations, entries, out, counts)
            })
    }

    // Whether the histories of players are answered as stored.
    fn answers_histories(&self, besides: Besides<'_>) -> bool {
        let (record, nations, entries) = (self.record, self.nations, self.entries);
        let counts = HistoryCounts {
            histories: self.words.len() / HISTORY_WIDTH,
            names: besides.words.len(),
        };
        let mut cells = [BEFORE; MOST_CELLS];
        self.answers_besides(counts, besides, &mut cells, |out, names| {
            chronicle::player_histories(record, nations, entries, out, names)
        })
    }

    // Whether what the vector asks is answered as stored.
    fn is_answered(&self) -> bool {
        let (record, nations, entries) = (self.record, self.nations, self.entries);
        let words = self.words.len();
        match self.asked {
            Asked::Questions(many) => self.answers(many.len() / QUESTION_WIDTH, |out| {
                chronicle::resolve_each(nations, entries, many, out)
            }),
            Asked::Bookings => self.answers(words / BOOKING_WIDTH, |out| {
                chronicle::war_participants(record, nations, entries, out)
            }),
            Asked::NationLedger(Some(counted)) => {
                self.can_be_ledger()
                    && self.answers(words / LEDGER_WIDTH, |out| {
                        chronicle::nation_ledger(record, nations, entries, counted.nation, out)
                    })
            }
            Asked::AllLedgers(Some(besides)) => self.answers_all_ledgers(besides),
            Asked::Players => self.answers(
                words / PLAYER_WIDTH,
                |out| chronicle::players(record, out),
            ),
            Asked::Histories(Some(besides)) => self.answers_histories(besides),
            Asked::StartingCountry(histories) => self.starts(histories),
            Asked::NationLedger(None) | Asked::AllLedgers(None) | Asked::Histories(None) => false,
        }
    }

    // Whether a nation's rows are counted as stored. No other answer is counted before it is written.
    fn is_counted(&self) -> bool {
        let counted = match self.asked {
            Asked::NationLedger(Some(counted)) => counted,
            Asked::NationLedger(None) => return false,
            _ => return true,
        };
        let told = chronicle::nation_ledger_rows(
            self.record,
            self.nations,
            self.entries,
            counted.nation,
            counted.most,
        );
        match told {
            Ok(rows) => counted.number == 0 && counted.rows == rows,
            Err(refusal) => counted.number == refusal.number() && counted.rows == 0,
        }
    }

    // How many questions the vector has, and how many answers are other ones than stored. Those asked one at a time only a vector of questions asks.
    pub(crate) fn replayed(&self) -> Counts {
        let asks_singly = matches!(self.asked, Asked::Questions(_));
        let singly = self.questions.iter().filter(|question| {
            asks_singly && !is_answered_singly(self.nations, self.entries, question)
        });
        let other = singly.count()
            + usize::from(!self.is_answered())
            + usize::from(!self.is_counted());
        let (wrong, noticed) = if self.is_falsified {
            (0, other)
        } else {
            (other, 0)
        };
        Counts {
            questions: self.questions.len(),
            wrong,
            noticed,
        }
    }
}
