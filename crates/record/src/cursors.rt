//! Iterators over the rows of a record that own others. Such a row comes with an iterator over what it owns. Four types and no generic one: countries
//! share two kinds of rows, provinces have facts beside them, a war is its events alone, and ledgers tell points by number; what is the same is two
//! lines of each `next`, and the one line of `len`, which wars do without.
ghost use Rattle.std.specs.Prelude.{◌≡◌, length};
ghost use Rattle.std.specs.Iterator.{YieldsFirstBy, item_count};
ghost use Rattle.record.specs.Cursors.{country_of, countries_left, war_events_left, wars_left};

use crate::rows::{PreviousTags, Rows, Switches, WarEvents};
use format::{CountryTag, PackedCountry};
use record_check::bit;

/// A country's row, with what it owns.
#[derive(Clone, Copy)]
pub struct CountryRow<'a> {
    pub tag: CountryTag,
    pub human: bool,
    pub was_player: bool,
    pub has_switched_nation: bool,
    pub cities: i32,
    pub previous: PreviousTags<'a>,
    pub switches: Switches<'a>,
}

/// The countries left, and the previous tags and the switches that they share.
#[derive(Clone, Copy)]
pub struct Countries<'a> {
    pub(crate) rows: Rows<'a, PackedCountry, 12>,
    pub(crate) previous: PreviousTags<'a>,
    pub(crate) switches: Switches<'a>,
}

#[tactic(auto, using(crate::proofs::CountLaws::counts))]
impl Countries<'_> {
    /// How many country rows are left.
    pub fn len(&self) -> usize
        ensures { result ≡ length (countries_left self.now) }
    {
        self.rows.len()
    }
}

#[tactic(auto, unfolding(format::specs::Campaign::group_countries))]
impl<'a> Iterator for Countries<'a> {
    type Item = CountryRow<'a>;

    ghost next_gives = { YieldsFirstBy country_of countries_left };

    ghost remaining = { item_count countries_left };

    fn next(&mut self) -> Option<CountryRow<'a>> {
        let row = self.rows.next()?;
        let previous = self.previous.take_front(row.previous as usize);
        let switches = self.switches.take_front(row.switches as usize);
        Some(CountryRow {
            tag: row.tag,
            human: bit(row.flags, 0),
            was_player: bit(row.flags, 1),
            has_switched_nation: bit(row.flags, 2),
            cities: row.cities,
            previous,
            switches,
        })
    }
}

/// The wars left, each told by its events, and the events that they share.
#[derive(Clone, Copy)]
pub struct Wars<'a> {
    pub(crate) rows: Rows<'a, u32, 2>,
    pub(crate) events: WarEvents<'a>,
}

#[tactic(auto, unfolding(format::specs::Campaign::group_wars))]
impl<'a> Iterator for Wars<'a> {
    type Item = WarEvents<'a>;

    ghost next_gives = { YieldsFirstBy war_events_left wars_left };

    ghost remaining = { item_count wars_left };

    fn next(&mut self) -> Option<WarEvents<'a>> {
        let count = self.rows.next()?;
        Some(self.events.take_front(count as usize))
    }
}
