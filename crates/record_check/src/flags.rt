//! Flags. A mask finds every bit that has no meaning.
ghost use Rattle.std.specs.Prelude.{◌≡◌, ◌^◌, ltb};
ghost use Rattle.format.specs.Bytes.{bit};

/// Bit k, by its mask; behind the last bit there is none. Of the head: 0 ironman, 1 multiplayer; of a country: 0 human, 1 was_player,
/// 2 has_switched_nation.
pub fn bit(flags: u32, k: u32) -> bool
    ensures { result ≡ bit k flags }
{
    let mask = 1u32.checked_shl(k).unwrap_or(0);
    flags & mask != 0
}

// Whether no bit is set but the first n, by the mask of all others. The head defines 2 flags, a country 3.
pub(crate) fn flags_defined(flags: u32, n: u32) -> bool
    ensures { result ≡ ltb flags (2 ^ n) }
{
    let others = u32::MAX.checked_shl(n).unwrap_or(0);
    flags & others == 0
}
