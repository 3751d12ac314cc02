//! The first element that has a tag, among elements that are numbered from 0 and kept as sorted keys.
ghost use Rattle.std.specs.Prelude.{◌≡◌, ◌%◌};
ghost use Rattle.lists.specs.Options.{option_of};
ghost use Rattle.search.specs.Places.{keys_per_tag, tag_key, place_in};

use crate::halving::SortedKeys;
use format::CountryTag;

/// How many keys a tag has, one for each number: one more of a tag adds this to a key.
pub const KEYS_PER_TAG: u64 = 1 << 16;

/// The key of a tag and a number, of which 16 bits are kept.
pub fn tag_key(tag: CountryTag, number: usize) -> u64
    ensures { result ≡ tag_key tag (number % keys_per_tag) }
{
    u64::from(u32::from(tag)) * KEYS_PER_TAG + number as u64 % KEYS_PER_TAG
}

/// The number of the first key that is this tag's, if there is one: of at most 65,536 elements whose keys these are, the first element that has the tag.
pub fn first_place(sorted: SortedKeys<'_>, tag: CountryTag) -> Option<usize>
    ensures { option_of result ≡ place_in sorted.entry.keys.now tag }
{
    let low = tag_key(tag, 0);
    let high = low + KEYS_PER_TAG;
    let key = *sorted.keys.get(sorted.count_below(low))?;
    (key < high).then_some((key % KEYS_PER_TAG) as usize)
}
