//! Blocks of claims as sorted keys. A key holds a claim's tag, date and number in the block, so that the claims to a tag stand together in the order of their
//! dates, those of one date in list order.
ghost use Rattle.std.specs.Prelude.{◌≡◌, ◌+◌, ◌<◌, ◌≤◌, IfSome};
ghost use Rattle.lists.specs.Options.{option_of};
ghost use Rattle.sorting.specs.Sort.{cleared};
ghost use Rattle.resolver.specs.Layout.{three_letters, claim_numbers, key_span};
ghost use Rattle.resolver.specs.Keys.{tag_bits, lowest_key, last_asked};
ghost use Rattle.resolver.specs.Holding.{taken_told, BlockFilled, BlockSorted};

use crate::claims::Claims;
use crate::layout::{
    CLAIM_DATES, CLAIM_NUMBERS, CLAIM_SPAN, LAST_NUMBER, MOST_CLAIMS, ONE_BYTE, ONE_LETTER,
    TWO_BYTES, TWO_LETTERS,
};
use format::{CountryTag, Eu4Date};
use search::SortedKeys;
use sorting::spread_sort;

// How many claims are sorted at a time: a chronicle of the largest record is one block.
pub(crate) const BLOCK: usize = 24576;

// A tag's 21 bits, seven for each byte.
#[tactic(auto, unfolding(crate::specs::Keys::tag_bits))]
fn tag_bits(tag: CountryTag) -> u64
    ensures { (result ≡ tag_bits tag) × (result < three_letters) }
{
    let w = u64::from(u32::from(tag));
    w / TWO_BYTES % ONE_LETTER * TWO_LETTERS
        + w / ONE_BYTE % ONE_LETTER * ONE_LETTER
        + w % ONE_LETTER
}

// The lowest key of a tag and a date: the tag's 21 bits, the date's 27, and 16 for a number.
#[tactic(auto, unfolding(crate::specs::Keys::lowest_key))]
fn lowest_key(tag: CountryTag, date: Eu4Date) -> u64
    ensures { (result ≡ lowest_key tag date) × (result + claim_numbers ≤ key_span) }
{
    tag_bits(tag) * CLAIM_SPAN + u64::from(u32::from(date)) % CLAIM_DATES * CLAIM_NUMBERS
}

// Takes as many claims as there is room for, and writes the key and the nation number of each; returns how many were taken, which `take` does not tell.
fn fill_block(claims: &mut Claims, keys: &mut [u64], owners: &mut [u64]) -> usize
    ensures { BlockFilled claims.old claims.new result keys.old keys.new owners.old owners.new }
{
    let room = keys.len().min(owners.len()).min(MOST_CLAIMS);
    for count in 0..room {
        let Some(claim) = claims.next() else {
            return count;
        };
        keys[count] = lowest_key(claim.tag, claim.date) + count as u64;
        owners[count] = claim.nation as u64;
    }
    room
}

// Takes as many claims as there is room for, and returns their number, their sorted keys and, by their numbers, the numbers of their nations; nothing once
// no claim is left. The scratch is for the sort.
pub(crate) fn sort_block(
    claims: &mut Claims,
    keys: &mut [u64],
    owners: &mut [u64],
    scratch: &mut [u64],
) -> Option<usize>
    ensures sorts { BlockSorted claims.old claims.new result keys.old keys.new owners.old owners.new }
    ensures scratch { scratch.new ≡ cleared (taken_told result) scratch.old }
    ensures some { IfSome result (λ taken. 0 < taken) }
{
    let taken = fill_block(claims, keys, owners);
    spread_sort(&mut keys[..taken], scratch);
    (taken != 0).then_some(taken)
}

// The last key of the tag that is not after the date: found fast with the starts that `index_block` sets for the keys, and found all the same with any
// others. The keys of a tag begin at the date before all.
pub(crate) fn look_up_near(
    sorted: SortedKeys<'_>,
    starts: &[u64],
    tag: CountryTag,
    date: Eu4Date,
) -> Option<u64>
    ensures { option_of result ≡ last_asked tag date sorted.entry.keys.now }
{
    let i = sorted.count_near(starts, lowest_key(tag, date) + LAST_NUMBER);
    let key = sorted.keys[i.checked_sub(1)?];
    (lowest_key(tag, Eu4Date::BEFORE_ALL) <= key).then_some(key)
}
