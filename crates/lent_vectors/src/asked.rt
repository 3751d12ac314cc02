//! What a vector asks, by its kind, with the words that it has besides: nothing where it lacks those of its kind.
use stored_input::BrokenOff;

#[derive(Clone, Copy)]
pub(crate) enum Asked<'a> {
    // All these questions at once.
    Questions(&'a [u32]),
    Bookings,
    // The ledger of a nation, and how many rows it is counted to have.
    NationLedger(Option<LedgerCount>),
    AllLedgers(Option<Besides<'a>>),
    Players,
    Histories(Option<Besides<'a>>),
    // The starting country of these history words.
    StartingCountry(&'a [u32]),
}

// A nation's number, how many of its rows to count at most, and what counting them gives: the number of a refusal or 0, and how many there are, of a
// refusal 0.
#[derive(Clone, Copy)]
pub(crate) struct LedgerCount {
    pub(crate) nation: usize,
    pub(crate) most: usize,
    pub(crate) number: u32,
    pub(crate) rows: usize,
}

// How many cells are lent besides those of the answer, and what stands in them afterwards.
#[derive(Clone, Copy)]
pub(crate) struct Besides<'a> {
    pub(crate) room: usize,
    pub(crate) words: &'a [u32],
}

impl LedgerCount {
    fn new(words: &[u32]) -> Option<LedgerCount> {
        let [nation, most, number, rows] = *words.as_array::<4>()?;
        Some(LedgerCount {
            nation: nation as usize,
            most: most as usize,
            number,
            rows: rows as usize,
        })
    }
}

impl<'a> Besides<'a> {
    fn new(words: &'a [u32]) -> Option<Besides<'a>> {
        let (room, words) = words.split_first()?;
        Some(Besides {
            room: *room as usize,
            words,
        })
    }
}

impl<'a> Asked<'a> {
    // By the number of a kind.
    pub(crate) fn new(kind: u32, words: &'a [u32]) -> Result<Asked<'a>, BrokenOff> {
        match kind {
            0 => Ok(Asked::Questions(words)),
            1 => Ok(Asked::Bookings),
            2 => Ok(Asked::NationLedger(LedgerCount::new(words))),
            3 => Ok(Asked::AllLedgers(Besides::new(words))),
            4 => Ok(Asked::Players),
            5 => Ok(Asked::Histories(Besides::new(words))),
            6 => Ok(Asked::StartingCountry(words)),
            _ => Err(BrokenOff),
        }
    }
}
