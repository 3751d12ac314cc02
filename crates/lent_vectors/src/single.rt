//! Questions about a lent chronicle, asked one at a time.
use format::{CountryTag, Eu4Date};

// How many numbers a question has, with its answer.
pub(crate) const SINGLE_WIDTH: usize = 7;

// The calls of the resolver, in the order of their numbers.
#[derive(Clone, Copy)]
enum Form {
    Resolve,
    Initial,
    ResolveAt,
    InitialAt,
}

impl From<u32> for Form {
    fn from(form: u32) -> Form {
        match form {
            0 => Form::Resolve,
            1 => Form::Initial,
            2 => Form::ResolveAt,
            // A greater number is the last form too.
            _ => Form::InitialAt,
        }
    }
}

// Whether a question is answered as it is stored: its form, a day, a tag and a date; then a refusal's number or 0, and the two tags of an
// answer, of which nothing and a refusal have zeros. Tag and dates are not tested here: some are bad, and the call is to refuse them.
pub(crate) fn is_answered_singly(
    nations: &[u32],
    entries: &[u32],
    question: &[u32; SINGLE_WIDTH],
) -> bool {
    let [form, day, tag, date, number, current, stored] = *question;
    let dated = chronicle::at(Eu4Date::from_word_unchecked(day));
    let tag = CountryTag::from_word_unchecked(tag);
    let date = Eu4Date::from_word_unchecked(date);
    let answer = match Form::from(form) {
        Form::Resolve => chronicle::resolve(nations, entries, tag, date),
        Form::Initial => chronicle::initial(nations, entries, tag),
        Form::ResolveAt => dated.resolve_at(nations, entries, tag, date),
        Form::InitialAt => dated.initial_at(nations, entries, tag),
    };
    let told = match answer {
        Ok(Some(found)) => [0, u32::from(found.current), u32::from(found.stored)],
        Ok(None) => [0, 0, 0],
        Err(refusal) => [refusal.number(), 0, 0],
    };
    told == [number, current, stored]
}
