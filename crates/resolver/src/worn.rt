//! The tag that a nation wears on a day, by its own entries.
ghost use Rattle.std.specs.Prelude.{◌≡◌};
ghost use Rattle.lists.specs.Lists.{last, or_else};
ghost use Rattle.lists.specs.Options.{option_of};
ghost use Rattle.rules.specs.Nations.{kind_target};
ghost use Rattle.resolver.specs.Found.{worn_in};

use format::{CountryTag, EntryKind, Eu4Date, NationRow};
use rows::NationEntries;

// The tag behind an entry: the target of a switch, else the tag worn so far.
fn tag_behind(worn: Option<CountryTag>, kind: EntryKind) -> Option<CountryTag>
    ensures { option_of result ≡ or_else (last (kind_target kind)) (option_of worn) }
{
    match kind {
        EntryKind::TagSwitch(tag) => Some(tag),
        EntryKind::Appeared | EntryKind::Annexed => worn,
    }
}

// The target of a nation's last switch before its first entry dated later than the day.
#[tactic(auto, using(crate::proofs::WornLaws::worn))]
pub(crate) fn worn_on(entries: &[u32], row: NationRow, day: Eu4Date) -> Option<CountryTag>
    ensures { option_of result ≡ worn_in entries.now day row.first row.count }
{
    let mut worn = None;
    for entry in NationEntries::new(row, entries) {
        let counts = entry.date <= day;
        if !counts {
            return worn;
        }
        worn = tag_behind(worn, entry.kind);
    }
    worn
}
