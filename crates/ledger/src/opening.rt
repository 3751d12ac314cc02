//! An index of a record's ledger names, and a look-up in it.
ghost use Rattle.std.specs.Prelude.{◌≡◌, ◌≤◌, length};
ghost use Rattle.std.proofs.Math.Option.{map};
ghost use Rattle.lists.specs.Options.{option_of};
ghost use Rattle.record.specs.Cursors.{points_left, ledgers_left};
ghost use Rattle.ledger.specs.Index.{points_under};

use crate::index::LedgerIndex;
use format::CountryTag;
use record::{Points, Record};
use search::{SortedKeys, first_place, tag_key};
use sorting::sort_keys;
use std::ops::Range;

impl<'n, 'a> LedgerIndex<'n, 'a> {
    // The index of the record's names, in cells for as many at least.
    pub(crate) fn new<const NAMES: usize>(
        opened: Record<'a>,
        keys: &'n mut [u64; NAMES],
        places: &'n mut [Range<usize>; NAMES],
    ) -> LedgerIndex<'n, 'a>
        requires { length (ledgers_left opened.ledgers) ≤ NAMES }
        ensures { result.opened ≡ opened.entry }
    {
        let names = opened.ledgers.len();
        let mut first = 0;
        for (number, row) in opened.ledgers.enumerate() {
            let end = first + row.points.len();
            keys[number] = tag_key(row.tag, number);
            places[number] = first..end;
            first = end;
        }
        let mut scratch = [0; NAMES];
        sort_keys(&mut keys[..names], &mut scratch);
        LedgerIndex {
            opened,
            keys: SortedKeys {
                keys: &keys[..names],
            },
            places: &places[..names],
        }
    }

    // The points of the first ledger row of a tag, if it has one.
    pub(crate) fn points_of(&self, tag: CountryTag) -> Option<Points<'a>>
        ensures { map points_left (option_of result) ≡ points_under tag (ledgers_left self.now.opened.ledgers) }
    {
        let number = first_place(self.keys, tag)?;
        let place = &self.places[number];
        Some(self.opened.ledgers.points_from(place.start, place.len()))
    }
}
