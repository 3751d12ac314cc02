//! The two words of a question's row: its best claim so far, and its answer.
ghost use Rattle.std.specs.Prelude.{◌≡◌, ◌%◌, ◌+◌, ◌*◌, ◌≤◌, length, get_or};
ghost use Rattle.std.proofs.Math.Option.{map};
ghost use Rattle.lists.specs.Options.{option_of};
ghost use Rattle.rules.specs.Questions.{answer_width, answer_words};
ghost use Rattle.resolver.specs.Claims.{plain_at};
ghost use Rattle.resolver.specs.Layout.{row_owners};
ghost use Rattle.resolver.specs.Keys.{key_number};
ghost use Rattle.resolver.specs.Passes.{row_set, updated, row_owner};

use crate::layout::{CLAIM_DATES, CLAIM_NUMBERS, OWNER_NUMBERS};
use rows::{nation_row_at, put};

// How many words an answer's row has.
pub(crate) const ANSWER_WIDTH: usize = 2;

// Writes row i.
pub(crate) fn put_row(out: &mut [u32], i: usize, row: [u32; ANSWER_WIDTH])
    requires { answer_width * (i + 1) ≤ length out.old }
    ensures { out.new ≡ row_set out.old i row }
{
    put(row, &mut out[ANSWER_WIDTH * i..]);
}

// The number of a key's nation, plus 1, as a word.
fn owner_word(owners: &[u64], key: u64) -> u32
    ensures { result ≡ get_or owners.now (key_number key) 0 % row_owners + 1 }
{
    let i = (key % CLAIM_NUMBERS) as usize;
    let owner = owners.get(i).copied().unwrap_or(0);
    (owner % OWNER_NUMBERS + 1) as u32
}

// What `ClaimBlock::updated_row` makes of the key that it has looked up: the later of a row's best claim so far and of the block's, of equals the
// block's. Between blocks the claim stands in two words of the lent answer, which say none by a nation number of 0.
pub(crate) fn later_row(
    owners: &[u64],
    looked: Option<u64>,
    best: u32,
    owner: u32,
) -> [u32; ANSWER_WIDTH]
    ensures { result ≡ updated owners.now (option_of looked) best owner }
{
    let Some(key) = looked else {
        return [best, owner];
    };
    let day = (key / CLAIM_NUMBERS % CLAIM_DATES) as u32;
    if (owner == 0) | (best <= day) {
        return [day, owner_word(owners, key)];
    }
    [best, owner]
}

/// The number of the nation that a row holds in its second word, plus 1; none by 0.
pub fn row_owner(owner: u32) -> Option<usize>
    ensures { option_of result ≡ row_owner owner }
{
    (owner as usize).checked_sub(1)
}

// Latest and stored tag of a nation by its number, 0 and 0 for none.
pub(crate) fn answer_row(nations: &[u32], nation: Option<usize>) -> [u32; ANSWER_WIDTH]
    ensures { result ≡ answer_words (map (plain_at nations.now) (option_of nation)) }
{
    let Some(number) = nation else {
        return [0, 0];
    };
    let nation = nation_row_at(nations, number);
    [nation.latest.into(), nation.stored.into()]
}
