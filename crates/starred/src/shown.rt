//! Answers as lines of text.
use format::{CountryTag, Entry, EntryKind, Refusal, TagData};
use std::fmt;

// A value as it is printed: a tag by its three bytes, a check as accepted or refused, an answer of the resolver by current and stored tag, an
// entry by its date and kind. A type of the program's own: how it prints them is no promise of the library.
#[derive(Clone, Copy)]
pub(crate) struct Shown<T>(pub(crate) T);

impl fmt::Display for Shown<CountryTag> {
    fn fmt<W: fmt::Write>(&self, f: &mut fmt::Formatter<W>) -> fmt::Result {
        let [_, a, b, c] = u32::from(self.0).to_be_bytes();
        write!(f, "{}{}{}", char::from(a), char::from(b), char::from(c))
    }
}

impl fmt::Display for Shown<Result<(), Refusal>> {
    fn fmt<W: fmt::Write>(&self, f: &mut fmt::Formatter<W>) -> fmt::Result {
        match self.0 {
            Ok(()) => write!(f, "accepted"),
            Err(refusal) => write!(f, "{refusal}"),
        }
    }
}

impl fmt::Display for Shown<Result<Option<TagData>, Refusal>> {
    fn fmt<W: fmt::Write>(&self, f: &mut fmt::Formatter<W>) -> fmt::Result {
        match self.0 {
            Ok(Some(data)) => {
                let current = Shown(data.current);
                let stored = Shown(data.stored);
                write!(f, "{current}, stored {stored}")
            }
            Ok(None) => write!(f, "none"),
            Err(refusal) => write!(f, "{refusal}"),
        }
    }
}

impl fmt::Display for Shown<Entry> {
    fn fmt<W: fmt::Write>(&self, f: &mut fmt::Formatter<W>) -> fmt::Result {
        let date = u32::from(self.0.date);
        match self.0.kind {
            EntryKind::TagSwitch(target) => {
                let target = Shown(target);
                write!(f, "{date} switch to {target}")
            }
            EntryKind::Appeared => write!(f, "{date} Appeared"),
            EntryKind::Annexed => write!(f, "{date} Annexed"),
        }
    }
}
