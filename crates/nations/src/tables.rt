//! The tables that nations are read from, lent together, each as far as it counts.
ghost use Rattle.nation_tables.specs.Gathering.{cells_from};
ghost use Rattle.nations.specs.Tables.{Readable};

use format::{CountryTag, Eu4Date};
use nation_tables::LossGain;
use search::SortedKeys;

// The countries' tags, the keys of their initials, the keys and the targets of their switches, for each row its first loss and
// first gain and the slots that it starts with, for each change its key and its two links, and the start date. That they can be read, each row and link
// inside, is a fact of the type: who makes one proves it of a campaign's tables.
#[derive(Clone, Copy)]
pub(crate) struct NationTables<'a> {
    pub tags: &'a [CountryTag],
    pub initial_keys: SortedKeys<'a>,
    pub runs: SortedKeys<'a>,
    pub targets: &'a [u64],
    pub firsts: &'a [LossGain],
    pub started: &'a [u32],
    pub keys: &'a [u64],
    pub turns: &'a [LossGain],
    pub start: Eu4Date,
    pub ghost readable: { Readable (cells_from tags.now initial_keys.keys.now runs.keys.now targets.now firsts.now started.now keys.now turns.now start) },
}
