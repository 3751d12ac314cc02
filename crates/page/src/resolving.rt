//! What C calls of the resolver. A tag, a date and a day are words, which the calls test, each in its turn; each is lent nation words and
//! entry words.
ghost use Rattle.rules.specs.Outcomes.{call_resolve, call_initial, call_resolve_on, call_initial_on};
ghost use Rattle.rules.specs.Questions.{call_resolve_each};
ghost use Rattle.page.specs.Host.{Returns};
ghost use Rattle.page.specs.Resolving.{data_cells};

use crate::found::put_data;
use crate::numbers::returned;
use format::{CountryTag, Eu4Date};

/// `resolve`.
pub fn resolver_resolve(
    nations: &[u32],
    entries: &[u32],
    tag: u32,
    date: u32,
    out: &mut [u32],
) -> i64
    ensures { Returns (data_cells (call_resolve nations.now entries.now tag date) out.old) result out.new }
{
    let tag = CountryTag::from_word_unchecked(tag);
    let date = Eu4Date::from_word_unchecked(date);
    put_data(chronicle::resolve(nations, entries, tag, date), out)
}

/// `initial`.
pub fn resolver_initial(nations: &[u32], entries: &[u32], tag: u32, out: &mut [u32]) -> i64
    ensures { Returns (data_cells (call_initial nations.now entries.now tag) out.old) result out.new }
{
    let tag = CountryTag::from_word_unchecked(tag);
    put_data(chronicle::initial(nations, entries, tag), out)
}

/// `resolve`, set to a day.
pub fn resolver_resolve_at(
    nations: &[u32],
    entries: &[u32],
    day: u32,
    tag: u32,
    date: u32,
    out: &mut [u32],
) -> i64
    ensures { Returns (data_cells (call_resolve_on nations.now entries.now day tag date) out.old) result out.new }
{
    let dated = chronicle::at(Eu4Date::from_word_unchecked(day));
    let tag = CountryTag::from_word_unchecked(tag);
    let date = Eu4Date::from_word_unchecked(date);
    put_data(dated.resolve_at(nations, entries, tag, date), out)
}

/// `initial`, set to a day.
pub fn resolver_initial_at(
    nations: &[u32],
    entries: &[u32],
    day: u32,
    tag: u32,
    out: &mut [u32],
) -> i64
    ensures { Returns (data_cells (call_initial_on nations.now entries.now day tag) out.old) result out.new }
{
    let dated = chronicle::at(Eu4Date::from_word_unchecked(day));
    let tag = CountryTag::from_word_unchecked(tag);
    put_data(dated.initial_at(nations, entries, tag), out)
}

/// `resolve_each`: the number of rows, two words each, or minus the refusal number.
pub fn resolver_resolve_each(
    nations: &[u32],
    entries: &[u32],
    questions: &[u32],
    out: &mut [u32],
) -> i64
    ensures { Returns (call_resolve_each nations.now entries.now questions.now out.old) result out.new }
{
    returned(chronicle::resolve_each(nations, entries, questions, out))
}
