//! A record whose tables find room.
ghost use Rattle.std.specs.Prelude.{length};
ghost use Rattle.nation_tables.specs.Gathering.{TableRoom};

use record::Record;

/// An opened record, of no more bytes than its tables are large enough for: so many countries, slots, keys that changes settle by, and changes.
#[derive(Clone, Copy)]
pub struct FittingRecord<
    'a,
    const COUNTRIES: usize,
    const SLOTS: usize,
    const KEYS: usize,
    const CHANGES: usize,
> {
    pub opened: Record<'a>,
    pub ghost fits: { TableRoom (length opened.bytes.now) COUNTRIES SLOTS KEYS CHANGES },
}
