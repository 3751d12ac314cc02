//! The rows of histories from their drafts: those with players first, and behind them the leftovers.
ghost use Rattle.std.specs.Prelude.{◌≡◌, is_some, List, length};
ghost use Rattle.std.specs.Iterator.{AlwaysYields, IsFinite};
ghost use Rattle.lists.specs.Lists.{keep};
ghost use Rattle.rules.specs.Lent.{written};
ghost use Rattle.players.specs.declared.drafts.Draft as D;
ghost use Rattle.players.specs.Drafts.{is_played};
ghost use Rattle.players.specs.ArrangedDrafts.{history_from, draft_words};
ghost use Rattle.players.specs.ArrangedDrafts.{WriteReady, DraftsWritten, Vanishes, HistoriesReady};

use crate::drafts::Draft;
use format::{CountryTag, HistoryRow};
use rows::{HISTORY_WIDTH, ToRow, put};

// The initial of the leftover that vanishes: of the last one, in ironman, where the only history with players is a released country's.
pub(crate) fn vanishing(drafts: &[Draft], ironman: bool, played: usize) -> Option<CountryTag>
    requires { played ≡ length (keep is_played drafts.now) }
    ensures { Vanishes ironman drafts.now result }
{
    let released = drafts
        .iter()
        .filter(|draft| draft.is_played())
        .any(|draft| draft.released);
    if ironman & (played == 1) & released {
        let leftovers = drafts.iter().filter(|draft| draft.is_leftover());
        return leftovers.map(|draft| draft.initial).last();
    }
    None
}

// The history of a draft, with the number of names before its own.
fn finish(draft: Draft, first: u32) -> HistoryRow
    ensures { result ≡ history_from draft first }
{
    HistoryRow {
        initial: draft.initial,
        latest: draft.latest,
        stored: draft.stored,
        nation: draft.nation,
        human: u32::from(draft.human),
        first,
        count: draft.count,
    }
}

// Writes the histories of drafts, and returns how many words they are; so many names are before theirs. By its offset: a proof knows no
// cell that is written through `as_chunks_mut`.
fn write_drafts<I: Iterator<Item = Draft> + Drop>(drafts: I, names: u32, out: &mut [u32]) -> usize
    requires can { I.can_next drafts }
    requires ends { IsFinite (I.remaining drafts) }
    requires ready { (all : List D.Draft) × AlwaysYields I.next_gives (λ d. d) drafts all
        × WriteReady all names out.old }
    ensures { (all : List D.Draft) → AlwaysYields I.next_gives (λ d. d) drafts all
        → DraftsWritten all names result out.old out.new }
{
    let mut first = names;
    let mut at = 0;
    for draft in drafts {
        put(finish(draft, first).to_row(), &mut out[at..]);
        first += draft.count;
        at += HISTORY_WIDTH;
    }
    at
}

// Writes all histories: those with players, the leftovers that stay, and over the first tag the initial of one that vanishes.
pub(crate) fn write_histories(
    drafts: &[Draft],
    vanished: Option<CountryTag>,
    kept: usize,
    names: u32,
    out: &mut [u32],
)
    requires { HistoriesReady drafts.now vanished kept names out.old }
    ensures { out.new ≡ written (draft_words (is_some vanished) drafts.now) out.old }
{
    let played = drafts.iter().copied().filter(|draft| draft.is_played());
    let at = write_drafts(played, 0, out);
    let leftovers = drafts.iter().copied().filter(|draft| draft.is_leftover());
    write_drafts(leftovers.take(kept), names, &mut out[at..]);
    if let Some(initial) = vanished {
        out[0] = u32::from(initial);
    }
}
