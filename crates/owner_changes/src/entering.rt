//! Changes written in entry order, before any is sorted.
ghost use Rattle.std.specs.Prelude.{◌≡◌, ◌*◌, ◌≤◌, leb, length};
ghost use Rattle.rules.specs.Changes.{change_width};
ghost use Rattle.owner_changes.specs.ChangeSteps.{changes_ahead};
ghost use Rattle.owner_changes.specs.RowSteps.{RowsEntered};

use crate::changes::{Changes, ProvinceChanges};
use crate::keys::ChangeKey;
use crate::writing;
use record::Provinces;
use rows::CHANGE_WIDTH;

// How many changes were entered, and how many of them go before the one that was entered before them.
#[derive(Clone, Copy, Debug, PartialEq, Eq)]
pub(crate) struct Walked {
    pub(crate) count: usize,
    pub(crate) falls: usize,
}

// Whether so many rows are enough for all changes: they are counted only where there is not room for as many as there are owner events.
pub(crate) fn has_room(provinces: Provinces, room: usize) -> bool
    ensures { result ≡ leb (length (changes_ahead provinces.entry)) room }
{
    let enough = provinces.events_left() <= room;
    if enough {
        return true;
    }
    Changes::new(provinces).nth(room).is_none()
}

// Writes the row of each change in entry order, and counts on the way how often one goes before the one in front of it: their keys tell, without a
// number, as those in front have the lower ones. Province by province, with the words written as the one count, and not inlined: one iterator over
// all changes, a count of rows beside the words, or the caller's values in its registers, and it takes a third longer.
#[inline(never)]
pub(crate) fn enter_rows(provinces: Provinces, out: &mut [u32]) -> Walked
    requires { change_width * length (changes_ahead provinces) ≤ length out.old }
    ensures { RowsEntered provinces.entry result out.old out.new }
{
    let mut end = 0;
    let mut falls = 0;
    let mut last = 0;
    for province in provinces {
        for change in ProvinceChanges::new(province) {
            let key = ChangeKey::new(change, 0).0;
            falls += usize::from(key < last);
            last = key;
            writing::put_change(change, end, out);
            end += CHANGE_WIDTH;
        }
    }
    Walked {
        count: end / CHANGE_WIDTH,
        falls,
    }
}
