//! A record that passed its check, with an iterator over the rows of each section.
ghost use Rattle.std.specs.Prelude.{◌≡◌};
ghost use Rattle.format.specs.Campaign.{campaign_of};
ghost use Rattle.format.specs.RecordNumber.{refusal};
ghost use Rattle.record.specs.Told.{Told};

use crate::cursors::{Countries, Wars};
use crate::ledger::Ledgers;
use crate::provinces::Provinces;
use crate::rows::Rows;
use crate::texts::Strings;
use format::{Eu4Date, Refusal};
use record_check::bit;

/// An accepted record, opened: its bytes, its head's flags and dates, and the rows of each section. That it is accepted, and that all of it is told by
/// its bytes, are facts of the type: whoever is given one tests nothing again.
#[derive(Clone, Copy)]
pub struct Record<'a> {
    pub bytes: &'a [u8],
    pub ironman: bool,
    pub multiplayer: bool,
    pub start: Eu4Date,
    pub current: Eu4Date,
    pub countries: Countries<'a>,
    pub provinces: Provinces<'a>,
    pub wars: Wars<'a>,
    pub ledgers: Ledgers<'a>,
    pub strings: Strings<'a>,
    pub ghost accepted: { refusal bytes.now ≡ 0 },
    pub ghost told: { Told (campaign_of bytes.now) ironman multiplayer start current countries provinces wars ledgers strings },
}

impl<'a> Record<'a> {
    ghost use Rattle.record.specs.Opened.{RightlyOpened};

    /// Opens the record of these bytes, or refuses them by their number: 1 to 9.
    #[tactic(auto, using(crate::proofs::TextLaws::strings_whole), unfolding(format::specs::Campaign::campaign_of))]
    pub fn open(s: &'a [u8]) -> Result<Record<'a>, Refusal>
        ensures { RightlyOpened s.now result }
    {
        let accepted = record_check::accept(s)?;
        let head = accepted.head;
        let sections = accepted.sections;
        Ok(Record {
            bytes: s,
            ironman: bit(head.flags, 0),
            multiplayer: bit(head.flags, 1),
            start: head.start,
            current: head.current,
            countries: Countries {
                rows: Rows::new(sections.countries),
                previous: Rows::new(sections.previous),
                switches: Rows::new(sections.switches),
            },
            provinces: Provinces {
                rows: Rows::new(sections.provinces),
                events: Rows::new(sections.events),
            },
            wars: Wars {
                rows: Rows::new(sections.wars),
                events: Rows::new(sections.war_events),
            },
            ledgers: Ledgers {
                rows: Rows::new(sections.ledgers),
                points: Rows::new(sections.points),
            },
            strings: Strings {
                bytes: sections.strings,
                left: head.strings,
            },
        })
    }
}
