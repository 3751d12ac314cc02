//! The ledger names of a record as sorted keys, and where the points of each stand: so a tag's points are found without a walk.
ghost use Rattle.ledger.specs.Index.{IsIndex};

use record::Record;
use search::SortedKeys;
use std::ops::Range;

// A record of no more ledger names has few: cells for so many take less time to clear than those for the most.
pub(crate) const FEW_LEDGERS: usize = 64;

// The place of no points among those of all. A name has a place and not the points themselves: of an array of references whose length is a const
// parameter nothing can be proved.
pub(crate) const NO_PLACE: Range<usize> = 0..0;

// The sorted keys of a record's ledger names, and where the points of each stand, in cells that are lent: a caller clears no more of them than it needs.
#[derive(Clone, Copy)]
pub(crate) struct LedgerIndex<'n, 'a> {
    pub(crate) opened: Record<'a>,
    pub(crate) keys: SortedKeys<'n>,
    pub(crate) places: &'n [Range<usize>],
    ghost indexed: { IsIndex opened.ledgers keys.keys.now places.now },
}
