//! Rows held against the claims of a chronicle, a sorted block of claims at a time.
ghost use Rattle.std.specs.Prelude.{◌≡◌, ltb, List, ℕ, length};
ghost use Rattle.rules.specs.NationRows.{nation_rows_in};
ghost use Rattle.resolver.specs.Claims.{claims_of};
ghost use Rattle.resolver.specs.Layout.{row_owners};
ghost use Rattle.resolver.specs.Keys.{last_asked};
ghost use Rattle.resolver.specs.Passes.{updated};
ghost use Rattle.resolver.specs.Holding.{block_keys, block_owners, blocks_of, held_through};

use crate::blocks::{BLOCK, look_up_near, sort_block};
use crate::claims::Claims;
use crate::layout::ROW_OWNERS;
use crate::words::{ANSWER_WIDTH, later_row};
use format::{CountryTag, Eu4Date};
use rows::{Chronicle, nation_count};
use search::{CELLS, SortedKeys, index_block};

/// Some claims: their sorted keys, the numbers of their nations, which a key leads to, and hints of where the keys of each cell start.
/// Owners stand beside the keys: a key has 16 bits for a claim's number, and none for its nation's.
#[derive(Clone, Copy)]
pub struct ClaimBlock<'a> {
    sorted: SortedKeys<'a>,
    owners: &'a [u64],
    starts: &'a [u64],
}

impl ClaimBlock<'_> {
    /// The later of a row's best claim so far, which is a date and the number of a nation plus 1, 0 for none, and of the block's latest claim to the tag
    /// that is not after the date: of equals the block's.
    pub fn updated_row(
        &self,
        tag: CountryTag,
        date: Eu4Date,
        best: u32,
        owner: u32,
    ) -> [u32; ANSWER_WIDTH]
        ensures { result ≡ updated (block_owners self.now) (last_asked tag date (block_keys self.now)) best owner }
    {
        let looked = look_up_near(self.sorted, self.starts, tag, date);
        later_row(self.owners, looked, best, owner)
    }
}

/// A pass over the rows of an answer: what it makes of them with a block of claims.
pub trait BlockPass {
    // What it makes of rows, by the sorted keys of a block and the numbers of its nations.
    ghost held: { Self → List ℕ → List ℕ → List ℕ → List ℕ };

    /// Holds the best claim so far of each row against that of the block.
    fn hold(&self, block: &ClaimBlock, out: &mut [u32])
        ensures { out.new ≡ held self.now (block_keys block.now) (block_owners block.now) out.old };
}

/// Whether a row's word has room for the number of every nation, plus 1. No fact that is proved: lent words may be more than a word can count.
pub fn fit_in_rows(nations: &[u32]) -> bool
    ensures { result ≡ ltb (length (nation_rows_in nations.now)) row_owners }
{
    nation_count(nations) < ROW_OWNERS
}

/// Holds rows against each block of a chronicle's claims, until none is left. It allocates nothing.
/// A `while let`: a block lies in arrays that the next one fills anew, so that no iterator can give it.
pub fn hold_blocks<P: BlockPass>(pass: &P, chronicle: Chronicle<'_>, out: &mut [u32])
    ensures { out.new ≡ held_through (P.held pass.now) (blocks_of (claims_of chronicle.entry)) out.old }
{
    let mut keys = [0u64; BLOCK];
    let mut owners = [0u64; BLOCK];
    let mut scratch = [0u64; BLOCK];
    let mut starts = [0u64; CELLS];
    let mut claims = Claims::new(chronicle);
    while let Some(taken) = sort_block(&mut claims, &mut keys, &mut owners, &mut scratch) {
        let sorted = SortedKeys {
            keys: &keys[..taken],
        };
        index_block(sorted.keys, &mut starts);
        let block = ClaimBlock {
            sorted,
            owners: &owners[..taken],
            starts: &starts,
        };
        pass.hold(&block, out);
    }
}
