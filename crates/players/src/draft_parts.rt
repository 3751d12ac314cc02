//! A draft, from what the tables give of a country.
ghost use Rattle.std.specs.Prelude.{◌≡◌, IfOk};
ghost use Rattle.format.specs.RefusalNumber.{number_of};
ghost use Rattle.players.specs.DraftParts.{taken_number, told_by, released_by, draft_by};

use crate::drafts::Draft;
use format::{CountryTag, NationRow, Refusal};
use record::CountryRow;
use rows::{Chronicle, nation_count, nation_row_at};

// The most nations that a word can number from 1 on.
const MOST_NUMBERED: usize = u32::MAX as usize;

// The chronicle of these words, if they are well shaped, and it has no more nations than a word can number.
pub(crate) fn open_numbered<'a>(
    nations: &'a [u32],
    entries: &'a [u32],
) -> Result<Chronicle<'a>, Refusal>
    ensures number { number_of result ≡ taken_number nations.now entries.now }
    ensures chronicle { IfOk result (λ c. (c.nations ≡ nations.entry) × (c.entries ≡ entries.entry)) }
{
    let chronicle = Chronicle::open(nations, entries)?;
    if MOST_NUMBERED < nation_count(nations) {
        return Err(Refusal::NotWellShaped);
    }
    Ok(chronicle)
}

// The nation of a number; without one a bare nation, for which the tag stands three times.
pub(crate) fn nation_or_bare(nations: &[u32], tag: CountryTag, number: Option<u32>) -> NationRow
    ensures { result ≡ told_by nations.now tag number }
{
    match number {
        Some(number) => nation_row_at(nations, number as usize),
        None => NationRow {
            initial: tag,
            latest: tag,
            stored: tag,
            first: 0,
            count: 0,
        },
    }
}

// Whether a country with so many players was released and is played on.
fn is_released(row: CountryRow<'_>, n: NationRow, count: u32) -> bool
    ensures { result ≡ released_by row.entry.human row.entry.has_switched_nation row.entry.cities n count }
{
    row.human & (count == 1) & (n.stored == n.latest) & row.has_switched_nation & (0 < row.cities)
}

// The draft of a country, from its nation and where its players stand among all. A draft counts nations from 1 on; the last number of a word, which
// `open_numbered` lets no nation have, wraps to none.
pub(crate) fn draft_of(
    row: CountryRow<'_>,
    n: NationRow,
    number: Option<u32>,
    first: u32,
    count: u32,
) -> Draft
    ensures { result ≡ draft_by row.entry.human row.entry.has_switched_nation row.entry.cities number n first count }
{
    Draft {
        initial: n.initial,
        latest: n.latest,
        stored: n.stored,
        nation: number.map_or(0, |number| number.wrapping_add(1)),
        human: row.human,
        released: is_released(row, n, count),
        first,
        count,
    }
}
