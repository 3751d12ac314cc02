//! Joinings: events that add a tag to a war as attacker or defender.
ghost use Rattle.std.specs.Prelude.{◌+◌, ◌≤◌, length};
ghost use Rattle.bookings.specs.AtHand.{wars_told};

use format::Joining;
use record::{Record, WarEvents, Wars};

// The last kind that adds a tag: kinds of war events are numbers, 0 for an attacker who joins and 1 for a defender.
const LAST_JOINING: u32 = 1;

// An iterator over the joinings, war by war: the number of the war at hand, the events that it has left, and the wars behind it. The number of
// every war fits a word.
#[derive(Clone, Copy)]
pub(crate) struct Joinings<'a> {
    war: u32,
    events: Option<WarEvents<'a>>,
    wars: Wars<'a>,
    ghost few: { war + length (wars_told events wars) ≤ 4294967295 },
}

impl<'a> Joinings<'a> {
    ghost use Rattle.std.specs.Prelude.{◌≡◌};
    ghost use Rattle.record.specs.Opened.{campaign_in};
    ghost use Rattle.rules.specs.Bookings.{joinings_of};
    ghost use Rattle.bookings.specs.Walking.{joinings_left};

    // All joinings of a record.
    pub(crate) fn new(opened: Record<'a>) -> Joinings<'a>
        ensures { joinings_left result ≡ joinings_of (campaign_in opened.entry) }
    {
        let mut wars = opened.wars;
        let events = wars.next();
        Joinings {
            war: 0,
            events,
            wars,
        }
    }
}

impl<'a> Iterator for Joinings<'a> {
    ghost use Rattle.std.specs.Iterator.{YieldsFirst, item_count};
    ghost use Rattle.bookings.specs.Walking.{joinings_left};

    type Item = Joining;

    ghost next_gives = { YieldsFirst joinings_left };

    ghost remaining = { item_count joinings_left };

    // The ghost field speaks of all fields at once: so they are set together.
    fn next(&mut self) -> Option<Joining> {
        let mut war = self.war;
        let mut at = self.events;
        let mut wars = self.wars;
        while let Some(mut events) = at {
            match events.next() {
                Some(event) => {
                    at = Some(events);
                    if event.kind <= LAST_JOINING {
                        *self = Joinings {
                            war,
                            events: at,
                            wars,
                        };
                        return Some(Joining {
                            war,
                            date: event.date,
                            tag: event.tag,
                        });
                    }
                }
                None => {
                    war += 1;
                    at = wars.next();
                }
            }
        }
        *self = Joinings {
            war,
            events: None,
            wars,
        };
        None
    }
}
