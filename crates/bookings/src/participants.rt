//! `war_participants`: under which tag a country is stored that joined a war under another.
ghost use Rattle.std.specs.Prelude.{◌≡◌};
ghost use Rattle.rules.specs.Lent.{outcome_of};
ghost use Rattle.rules.specs.Outcomes.{call_war_participants};

use crate::passes::{CountedJoinings, book_rows};
use format::Refusal;
use record::Record;
use rows::{BOOKING_WIDTH, Chronicle};

/// Books every tag that joins a war, by an opened record and in its order: a row of three words each, the war's number, from 0, the tag, and the tag under
/// which its country is stored by the chronicle, or the tag itself where that finds none; returns how many rows there are. Refused by `NotWellShaped` is a
/// chronicle that is not well shaped, by `NoRoom` a slice that is too short, before the first cell is written.
pub fn war_participants_of(
    opened: Record<'_>,
    nations: &[u32],
    entries: &[u32],
    out: &mut [u32],
) -> Result<usize, Refusal>
    ensures { outcome_of (λ n. n) result out.new ≡ call_war_participants opened.entry.bytes.now nations.now entries.now out.old }
{
    let chronicle = Chronicle::open(nations, entries)?;
    let counted = CountedJoinings::new(opened);
    if out.len() / BOOKING_WIDTH < counted.n {
        return Err(Refusal::NoRoom);
    }
    book_rows(counted, chronicle, out);
    Ok(counted.n)
}

/// Books every tag that joins a war, in rows as `war_participants_of` writes them. A bad record is refused by its own refusal, all else as there.
///
/// # Source
/// `war_participants` of query.rs.
pub fn war_participants(
    s: &[u8],
    nations: &[u32],
    entries: &[u32],
    out: &mut [u32],
) -> Result<usize, Refusal>
    ensures { outcome_of (λ n. n) result out.new ≡ call_war_participants s.now nations.now entries.now out.old }
{
    let opened = Record::open(s)?;
    war_participants_of(opened, nations, entries, out)
}
