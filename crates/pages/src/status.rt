//! Whether a nation is living.
ghost use Rattle.std.specs.Prelude.{◌≡◌};
ghost use Rattle.rules.specs.Page.{is_living};
ghost use Rattle.pages.specs.Status.{lives_on, nation_with};

use format::{EntryKind, NationRow};
use rows::NationEntries;

// Whether it lives on behind an entry of this kind: a switch changes nothing.
fn lives_on(living: bool, kind: EntryKind) -> bool
    ensures { result ≡ lives_on living kind }
{
    match kind {
        EntryKind::TagSwitch(_) => living,
        EntryKind::Appeared => true,
        EntryKind::Annexed => false,
    }
}

// Whether a nation is living: unless Annexed came last of what is no switch.
#[tactic(auto, using(crate::proofs::StatusLaws::living_along))]
pub(crate) fn is_living(entries: &[u32], nation: NationRow) -> bool
    ensures { result ≡ is_living (nation_with entries.now nation) }
{
    let mut living = true;
    for entry in NationEntries::new(nation, entries) {
        living = lives_on(living, entry.kind);
    }
    living
}
