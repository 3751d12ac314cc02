//! Drafts of histories, and which of them have players.
ghost use Rattle.std.specs.Prelude.{◌≡◌};
ghost use Rattle.players.specs.Drafts.{blank, is_played, is_leftover};

use format::CountryTag;

// A history before its place among the others is known: three tags; its nation; whether a human plays its country, and whether that was released and
// is played on; and its players, by the first of their keys among the sorted ones of all, and how many they are. Its nation is numbered from 1, and 0
// is none, as in the row that is written of it.
#[derive(Clone, Copy, Debug, PartialEq, Eq)]
pub(crate) struct Draft {
    pub initial: CountryTag,
    pub latest: CountryTag,
    pub stored: CountryTag,
    pub nation: u32,
    pub human: bool,
    pub released: bool,
    pub first: u32,
    pub count: u32,
}

impl Draft {
    /// What stands where no draft was written yet. All zeros, its tags too, which are no country's: so an array of it is cleared at once, where tags of
    /// `CountryTag::NONE` would be stored one by one. A function, for a constant may not call `from_word_unchecked`.
    pub fn blank() -> Draft
        ensures { result ≡ blank }
    {
        Draft {
            initial: CountryTag::from_word_unchecked(0),
            latest: CountryTag::from_word_unchecked(0),
            stored: CountryTag::from_word_unchecked(0),
            nation: 0,
            human: false,
            released: false,
            first: 0,
            count: 0,
        }
    }

    // Whether it has players.
    pub(crate) fn is_played(&self) -> bool
        ensures { result ≡ is_played self.now }
    {
        0 < self.count
    }

    // Whether it has none.
    pub(crate) fn is_leftover(&self) -> bool
        ensures { result ≡ is_leftover self.now }
    {
        !self.is_played()
    }
}
