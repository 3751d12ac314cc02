//! Owner changes: an event that gives a province to another tag than it has is a change.
ghost use Rattle.std.specs.Prelude.{◌≡◌, List};
ghost use Rattle.std.specs.Iterator.{AlwaysYields, IsFinite, YieldsFirst, item_count};
ghost use Rattle.record.specs.Cursors.{province_of};
ghost use Rattle.format.specs.declared.values.OwnerChange.{OwnerChange};
ghost use Rattle.rules.specs.Changes.{province_changes};
ghost use Rattle.owner_changes.specs.ChangeSteps.{slot_changes, changes_ahead, changes_left};
ghost use Rattle.owner_changes.specs.Giving.{changes_give};

use format::OwnerChange;
use record::{ProvinceRow, Provinces};

/// An iterator over changes that may always be asked, and comes to its end.
pub trait Changing: Iterator<Item = OwnerChange> + Drop {
    // The changes that it has left.
    ghost left: { Self → List OwnerChange };

    ghost gives: { (changes : Self) → AlwaysYields Self.Iterator.next_gives (λ x. x) changes (left changes) };

    ghost can: { (changes : Self) → Self.Iterator.can_next changes };

    ghost ends: { (changes : Self) → IsFinite (Self.Iterator.remaining changes) };
}

/// An iterator over the changes of one province in entry order. Its row is kept as its slot stands: the owner is the tag of the last event passed, and the
/// events are those left.
#[derive(Clone, Copy)]
pub struct ProvinceChanges<'a> {
    row: ProvinceRow<'a>,
}

impl<'a> ProvinceChanges<'a> {
    /// The changes of the events that the row has.
    pub fn new(row: ProvinceRow<'a>) -> ProvinceChanges<'a>
        ensures { slot_changes result ≡ province_changes (province_of row.entry) }
    {
        ProvinceChanges { row }
    }
}

impl Iterator for ProvinceChanges<'_> {
    type Item = OwnerChange;

    ghost next_gives = { YieldsFirst slot_changes };

    ghost remaining = { item_count slot_changes };

    // A `while let`, here and below: what is left of the events, or of the provinces, is the iterator's own.
    fn next(&mut self) -> Option<OwnerChange> {
        while let Some(event) = self.row.events.next() {
            let from = self.row.owner;
            self.row.owner = event.tag;
            if from != event.tag {
                return Some(OwnerChange {
                    date: event.date,
                    id: self.row.id,
                    from,
                    to: event.tag,
                });
            }
        }
        None
    }
}

/// An iterator over changes in entry order: those left of the province at hand, and of all behind it.
#[derive(Clone, Copy)]
pub struct Changes<'a> {
    slot: Option<ProvinceChanges<'a>>,
    provinces: Provinces<'a>,
}

impl<'a> Changes<'a> {
    /// The changes of the provinces left.
    pub fn new(mut provinces: Provinces<'a>) -> Changes<'a>
        ensures { changes_left result ≡ changes_ahead provinces.entry }
    {
        let slot = provinces.next().map(ProvinceChanges::new);
        Changes { slot, provinces }
    }
}

impl Iterator for Changes<'_> {
    type Item = OwnerChange;

    ghost next_gives = { YieldsFirst changes_left };

    ghost remaining = { item_count changes_left };

    fn next(&mut self) -> Option<OwnerChange> {
        while let Some(mut slot) = self.slot {
            if let Some(change) = slot.next() {
                self.slot = Some(slot);
                return Some(change);
            }
            self.slot = self.provinces.next().map(ProvinceChanges::new);
        }
        None
    }
}

impl Changing for Changes<'_> {
    ghost left = { changes_left };

    ghost gives = { changes_give };

    ghost can = { λ c. tt };

    ghost ends = { λ c. tt };
}
