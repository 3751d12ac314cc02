//! An iterator over the spans of a nation, entry by entry. Entries may be in any order: a span may well end before it starts.
ghost use Rattle.std.specs.Prelude.{◌≡◌};
ghost use Rattle.std.specs.Iterator.{YieldsFirst, item_count};
ghost use Rattle.rules.specs.Ledger.{runs_on, closed as closedSpan, spans_from};
ghost use Rattle.rows.specs.RowAt.{entries_at};
ghost use Rattle.ledger.specs.SpanSteps.{running_in, opened_span, closes_one, spans_left};

use format::{CountryTag, Entry, EntryKind, Eu4Date, NationRow, Span};
use rows::NationEntries;

// The span that no entry has closed yet, and whether Annexed came last: tag and start go on behind it, for an Appeared.
#[derive(Clone, Copy)]
pub(crate) struct RunningSpan {
    pub(crate) tag: CountryTag,
    pub(crate) start: Eu4Date,
    pub(crate) annexed_last: bool,
}

// Whether an entry of this kind closes a span.
fn closes_one(kind: EntryKind) -> bool
    ensures { result ≡ closes_one kind }
{
    matches!(kind, EntryKind::TagSwitch(_) | EntryKind::Annexed)
}

impl RunningSpan {
    // A span that begins on a date.
    fn opened(tag: CountryTag, start: Eu4Date) -> RunningSpan
        ensures { running_in result ≡ opened_span tag start }
    {
        RunningSpan {
            tag,
            start,
            annexed_last: false,
        }
    }

    // The span, closed on a date.
    fn closed(self, end: Eu4Date) -> Span
        ensures { result ≡ closedSpan (running_in self) end }
    {
        Span {
            tag: self.tag,
            start: self.start,
            end,
        }
    }

    // What runs on behind an entry.
    fn behind(self, entry: Entry) -> RunningSpan
        ensures { running_in result ≡ runs_on (running_in self) entry.date entry.kind }
    {
        match entry.kind {
            EntryKind::TagSwitch(target) => RunningSpan::opened(target, entry.date),
            EntryKind::Appeared => RunningSpan::opened(self.tag, entry.date),
            EntryKind::Annexed => RunningSpan {
                annexed_last: true,
                ..self
            },
        }
    }
}

// What runs, until the last span was given; the entries that are left; and the date on which what still runs behind them is closed.
#[derive(Clone, Copy)]
pub(crate) struct Spans<'a> {
    pub(crate) running: Option<RunningSpan>,
    pub(crate) entries: NationEntries<'a>,
    pub(crate) current: Eu4Date,
}

impl<'a> Spans<'a> {
    /// The spans of a nation's row, from the campaign's start date on.
    pub fn new(entries: &'a [u32], nation: NationRow, start: Eu4Date, current: Eu4Date) -> Spans<'a>
        ensures { spans_left result
            ≡ spans_from current (opened_span nation.initial start) (entries_at entries.now nation.first nation.count) }
    {
        Spans {
            running: Some(RunningSpan::opened(nation.initial, start)),
            entries: NationEntries::new(nation, entries),
            current,
        }
    }
}

impl Iterator for Spans<'_> {
    type Item = Span;

    ghost next_gives = { YieldsFirst spans_left };

    ghost remaining = { item_count spans_left };

    // What runs is carried from entry to entry, up to one that closes it.
    fn next(&mut self) -> Option<Span> {
        let mut running = self.running?;
        while let Some(entry) = self.entries.next() {
            let span = running.closed(entry.date);
            running = running.behind(entry);
            if closes_one(entry.kind) {
                self.running = Some(running);
                return Some(span);
            }
        }
        self.running = None;
        (!running.annexed_last).then_some(running.closed(self.current))
    }
}
