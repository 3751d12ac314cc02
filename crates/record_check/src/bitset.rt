//! A set of numbers as the bits of 64-bit words: number k is bit k % 64, lowest first, of word k / 64.
ghost use Rattle.std.specs.Prelude.{◌≡◌};
ghost use Rattle.record_check.specs.Bitset.{is_marked, marking};

// Whether number k is marked. A number past the words is not.
#[tactic(auto, unfolding(crate::specs::Bitset::is_marked, crate::specs::Bitset::has_bit))]
pub(crate) fn contains(words: &[u64], k: usize) -> bool
    ensures { result ≡ is_marked words.now k }
{
    words
        .get(k / 64)
        .is_some_and(|word| (*word >> (k % 64)) % 2 == 1)
}

// Marks number k. Past the words it does nothing.
#[tactic(auto, unfolding(crate::specs::Bitset::marking, crate::specs::Bitset::with_bit))]
pub(crate) fn insert(words: &mut [u64], k: usize)
    ensures { words.new ≡ marking words.old k }
{
    let at = k / 64;
    // Not by `get_mut`: of what is written through it, the slice's contract tells its length alone.
    if at < words.len() {
        words[at] |= 1 << (k % 64);
    }
}
