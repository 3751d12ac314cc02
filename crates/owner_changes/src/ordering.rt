//! All changes ahead written in order, or none of them.
ghost use Rattle.std.specs.Prelude.{◌≡◌};
ghost use Rattle.rules.specs.Lent.{outcome_of};
ghost use Rattle.owner_changes.specs.RowSteps.{ahead_outcome};

use crate::keys::MOST_CHANGES;
use crate::{entering, ordered_rows};
use format::Refusal;
use record::Provinces;
use rows::CHANGE_WIDTH;

// Writes the rows of the changes ahead by date and id, and returns how many. Where the slice is too short for all of them, or a campaign
// cannot have as many, nothing is written.
pub(crate) fn write_ordered(provinces: Provinces, out: &mut [u32]) -> Result<usize, Refusal>
    ensures { outcome_of (λ n. n) result out.new ≡ ahead_outcome provinces.entry out.old }
{
    if !entering::has_room(provinces, (out.len() / CHANGE_WIDTH).min(MOST_CHANGES)) {
        return Err(Refusal::NoRoom);
    }
    let walked = entering::enter_rows(provinces, out);
    let end = CHANGE_WIDTH * walked.count;
    ordered_rows::order_rows(&mut out[..end], walked.falls);
    Ok(walked.count)
}
