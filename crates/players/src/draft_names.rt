//! The list of names, draft by draft: of each player's key the lowest 16 bits.
ghost use Rattle.std.specs.Prelude.{◌≡◌, map, ◌≤◌, length};
ghost use Rattle.lists.specs.Lists.{sum_of, join_of};
ghost use Rattle.rules.specs.Lent.{written};
ghost use Rattle.players.specs.ArrangedDrafts.{name_in, names_at, NamesFit};

use crate::drafts::Draft;
use search::KEYS_PER_TAG;

// How many names the drafts have.
pub(crate) fn count_names(drafts: &[Draft]) -> usize
    requires { length drafts.now ≤ 2000 }
    ensures { result ≡ sum_of (λ d. d.count) drafts.now }
{
    drafts.iter().map(|draft| draft.count as usize).sum()
}

// Writes the name of each key. By its index: a proof knows no cell that is written through a `zip` with `iter_mut`.
fn copy_names(keys: &[u64], out: &mut [u32])
    requires { length keys.now ≤ length out.old }
    ensures { out.new ≡ written (map name_in keys.now) out.old }
{
    for (i, key) in keys.iter().enumerate() {
        out[i] = (*key % KEYS_PER_TAG) as u32;
    }
}

// Writes the names of all drafts, by rising string number in each. Those without any write none, so the order of the histories is no matter.
// The offset is kept beside the walk: each draft has a number of names of its own.
pub(crate) fn write_names(drafts: &[Draft], keys: &[u64], out: &mut [u32])
    requires { NamesFit drafts.now keys.now out.old }
    ensures { out.new ≡ written (join_of (names_at keys.now) drafts.now) out.old }
{
    let mut at = 0;
    for draft in drafts {
        let first = draft.first as usize;
        let count = draft.count as usize;
        copy_names(&keys[first..first + count], &mut out[at..]);
        at += count;
    }
}
