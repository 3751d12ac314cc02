//! Words in a lent slice: their number is returned, or minus 10 where they find no room. An answer of nothing writes none.
ghost use Rattle.lists.specs.Options.{option_of};
ghost use Rattle.rules.specs.Lent.{answer_of};
ghost use Rattle.page.specs.Host.{Returns, word_cells, found_cells};
ghost use Rattle.page.specs.Resolving.{data_cells};
ghost use Rattle.page.specs.Playing.{starting_words};

use crate::numbers::minus;
use format::{CountryTag, Refusal, TagData};
use rows::put;

// Writes the words, and gives their number; without room for them minus 10, and nothing is written.
pub(crate) fn put_words<const N: usize>(words: [u32; N], out: &mut [u32]) -> i64
    ensures { Returns (word_cells words.entry out.old) result out.new }
{
    if !put(words, out) {
        return minus(Refusal::NoRoom);
    }
    N as i64
}

// Of the next two no one function is made: given their words by a `map` in a `map`, the search finds no proof (tried), and a second match is short.

// Writes a found tag and the tag it is stored under, and gives 2; for none 0. Else minus the refusal number: 10 where the slice has no
// two words for them.
pub(crate) fn put_data(answer: Result<Option<TagData>, Refusal>, out: &mut [u32]) -> i64
    ensures { Returns (data_cells (answer_of option_of answer) out.old) result out.new }
{
    match answer {
        Ok(Some(TagData { current, stored })) => put_words([current.into(), stored.into()], out),
        Ok(None) => 0,
        Err(refusal) => minus(refusal),
    }
}

// Writes the tag of the starting country, and gives 1; for none 0. Else minus the refusal number: 10 where there is no word for it.
pub(crate) fn put_starting(answer: Result<Option<CountryTag>, Refusal>, out: &mut [u32]) -> i64
    ensures { Returns (found_cells starting_words (answer_of option_of answer) out.old) result out.new }
{
    match answer {
        Ok(Some(tag)) => put_words([tag.into()], out),
        Ok(None) => 0,
        Err(refusal) => minus(refusal),
    }
}
