//! An iterator over the provinces, each with its owner events.
ghost use Rattle.std.specs.Prelude.{◌≡◌, true, map, length};
ghost use Rattle.lists.specs.Lists.{all_of, sum_of};
ghost use Rattle.format.specs.Rows.{province_at, owner_event_at};
ghost use Rattle.record.specs.Narrow.{narrow_id, narrow_tag};

use crate::rows::{OwnerEvents, ROW_BYTES, Rows};
use format::{CountryTag, PackedProvince, ProvinceId};

/// A province's row, with its owner events.
#[derive(Clone, Copy)]
pub struct ProvinceRow<'a> {
    pub id: ProvinceId,
    pub owner: CountryTag,
    pub events: OwnerEvents<'a>,
}

/// The provinces left, and the owner events that they share, of which there are as many as the provinces count; their ids and tags are as small as
/// their bytes allow.
#[derive(Clone, Copy)]
pub struct Provinces<'a> {
    pub(crate) rows: Rows<'a, PackedProvince, ROW_BYTES>,
    pub(crate) events: OwnerEvents<'a>,
    ghost narrow_ids: { all_of narrow_id (map (λ row. province_at row 0) rows.packed.now) ≡ true },
    ghost narrow_tags: { all_of narrow_tag (map (λ row. owner_event_at row 0) events.packed.now) ≡ true },
    ghost counted: { sum_of (λ r. r.events) (map (λ row. province_at row 0) rows.packed.now) ≡ length (map (λ row. owner_event_at row 0) events.packed.now) },
}

#[tactic(auto, using(crate::proofs::CountLaws::counts, crate::proofs::SharedLaws::events_shared))]
impl Provinces<'_> {
    ghost use Rattle.record.specs.Cursors.{provinces_left};

    /// How many province rows are left.
    pub fn len(&self) -> usize
        ensures { result ≡ length (provinces_left self.now) }
    {
        self.rows.len()
    }

    /// How many owner events the provinces left have.
    pub fn events_left(&self) -> usize
        ensures { result ≡ sum_of (λ p. length p.events) (provinces_left self.now) }
    {
        self.events.len()
    }
}

#[tactic(auto, using(crate::proofs::NarrowLaws::narrow, crate::proofs::SharedLaws::events_rest), unfolding(format::specs::Campaign::group_provinces))]
impl<'a> Iterator for Provinces<'a> {
    ghost use Rattle.std.specs.Iterator.{YieldsFirstBy, item_count};
    ghost use Rattle.record.specs.Cursors.{province_of, provinces_left};

    type Item = ProvinceRow<'a>;

    ghost next_gives = { YieldsFirstBy province_of provinces_left };

    ghost remaining = { item_count provinces_left };

    fn next(&mut self) -> Option<ProvinceRow<'a>> {
        let row = self.rows.next()?;
        let events = self.events.take_front(row.events as usize);
        Some(ProvinceRow {
            id: row.id,
            owner: row.owner,
            events,
        })
    }
}
