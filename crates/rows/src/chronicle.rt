//! A lent chronicle.
ghost use Rattle.std.specs.Prelude.{◌≡◌, cond, IfOk};
ghost use Rattle.format.specs.RefusalNumber.{number_of};
ghost use Rattle.rules.specs.NationRows.{well_shaped};

use crate::shape::is_well_shaped;
use format::Refusal;

/// Nation words and entry words, which anybody may have written.
/// That they are well shaped is no fact of this type: `best_claim` (resolver) promises its
/// answer of any words, and `open` alone tells who asks for it.
#[derive(Clone, Copy)]
pub struct Chronicle<'a> {
    pub nations: &'a [u32],
    pub entries: &'a [u32],
}

impl<'a> Chronicle<'a> {
    /// The chronicle of these words, if they are well shaped; else refused by `NotWellShaped`.
    pub fn open(nations: &'a [u32], entries: &'a [u32]) -> Result<Chronicle<'a>, Refusal>
        ensures number { number_of result ≡ cond (well_shaped nations.now entries.now) 0 11 }
        ensures chronicle { IfOk result (λ c. (c.nations ≡ nations.entry) × (c.entries ≡ entries.entry)) }
    {
        if is_well_shaped(nations, entries) {
            Ok(Chronicle { nations, entries })
        } else {
            Err(Refusal::NotWellShaped)
        }
    }
}
