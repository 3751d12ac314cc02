//! Histories from drafts, by the room that there is.
ghost use Rattle.std.specs.Prelude.{◌≡◌};
ghost use Rattle.rules.specs.Lent.{outcome_of};
ghost use Rattle.players.specs.ArrangedDrafts.{ArrangeReady, drafted_outcome};
ghost use Rattle.players.specs.LentSlices.{history_cells};

use crate::drafts::Draft;
use crate::{draft_names, history_rows};
use format::{HistoryCounts, Refusal};
use rows::HISTORY_WIDTH;

// The histories of drafts, and the names that they lead to among sorted keys of players: both are counted before the first cell is written. Refused by
// `NoRoom` is either slice that is too short.
pub(crate) fn arrange_drafts(
    ironman: bool,
    drafts: &[Draft],
    keys: &[u64],
    histories: &mut [u32],
    names: &mut [u32],
) -> Result<HistoryCounts, Refusal>
    requires { ArrangeReady drafts.now keys.now }
    ensures { outcome_of (λ n. n) result (history_cells histories.new names.new)
        ≡ drafted_outcome ironman drafts.now keys.now (history_cells histories.old names.old) }
{
    let played = drafts.iter().filter(|draft| draft.is_played()).count();
    let leftovers = drafts.iter().filter(|draft| draft.is_leftover()).count();
    let vanished = history_rows::vanishing(drafts, ironman, played);
    let kept = leftovers.saturating_sub(usize::from(vanished.is_some()));
    let n = played + kept;
    let total = draft_names::count_names(drafts);
    if (histories.len() < HISTORY_WIDTH * n) | (names.len() < total) {
        return Err(Refusal::NoRoom);
    }
    history_rows::write_histories(drafts, vanished, kept, total as u32, histories);
    draft_names::write_names(drafts, keys, names);
    let counts = HistoryCounts {
        histories: n,
        names: total,
    };
    Ok(counts)
}
