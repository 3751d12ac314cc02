//! Claims: a nation goes by its initial from before every date on, and by the target of each of its switches from that switch's date on.
ghost use Rattle.std.specs.Prelude.{◌≡◌, [], ◌+◌, ◌^◌, ◌<◌, length};
ghost use Rattle.std.specs.Iterator.{YieldsFirst, item_count};
ghost use Rattle.rows.specs.RowAt.{counted_left, nations_left};

use format::{CountryTag, EntryKind, Eu4Date};
use rows::{Chronicle, NationEntries, Nations};

/// A nation, by its number from 0, goes by a tag from a date on.
#[derive(Clone, Copy, Debug, PartialEq, Eq)]
pub struct Claim {
    pub tag: CountryTag,
    pub date: Eu4Date,
    pub nation: usize,
}

// An iterator over the claims of a chronicle, nation by nation: whose entries are left, and which, and the nations behind it, of which the first has
// the number `coming`. The number of every nation is a size of memory.
#[derive(Clone, Copy)]
pub(crate) struct Claims<'a> {
    nations: Nations<'a>,
    entries: &'a [u32],
    owner: usize,
    own: NationEntries<'a>,
    coming: usize,
    ghost few: { coming + length (nations_left nations) < 2 ^ 64 },
}

impl<'a> Claims<'a> {
    ghost use Rattle.resolver.specs.Claims.{claims_of, claims_left};

    // All claims of a chronicle.
    pub(crate) fn new(chronicle: Chronicle<'a>) -> Claims<'a>
        ensures { claims_left result ≡ claims_of chronicle.entry }
    {
        Claims {
            nations: Nations::new(chronicle.nations),
            entries: chronicle.entries,
            owner: 0,
            own: NationEntries::none(),
            coming: 0,
        }
    }

    // The claim of the nation that comes to its initial, dated before every date; its entries come behind it. The ghost field speaks of the nations left
    // and their first number at once: so they are set together.
    fn next_initial(&mut self) -> Option<Claim>
        requires { counted_left self.old.own ≡ [] }
        ensures { YieldsFirst claims_left self.old result self.new }
    {
        let mut nations = self.nations;
        let row = nations.next()?;
        let nation = self.coming;
        *self = Claims {
            nations,
            entries: self.entries,
            owner: nation,
            own: NationEntries::new(row, self.entries),
            coming: nation + 1,
        };
        Some(Claim {
            tag: row.initial,
            date: Eu4Date::BEFORE_ALL,
            nation,
        })
    }
}

impl<'a> Iterator for Claims<'a> {
    ghost use Rattle.resolver.specs.Claims.{claims_left};

    type Item = Claim;

    ghost next_gives = { YieldsFirst claims_left };

    ghost remaining = { item_count claims_left };

    fn next(&mut self) -> Option<Claim> {
        while let Some(entry) = self.own.next() {
            if let EntryKind::TagSwitch(tag) = entry.kind {
                return Some(Claim {
                    tag,
                    date: entry.date,
                    nation: self.owner,
                });
            }
        }
        self.next_initial()
    }
}
