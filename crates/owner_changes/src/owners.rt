//! What is asked of owner changes: all of them in order, and the run of a date.
ghost use Rattle.std.specs.Prelude.{◌≡◌};
ghost use Rattle.rules.specs.Changes.{events_on};
ghost use Rattle.rules.specs.Lent.{answer_of, outcome_of};
ghost use Rattle.rules.specs.Outcomes.{call_province_owners, call_events_on};
ghost use Rattle.owner_changes.specs.ChangeSteps.{entered};

use crate::changes::Changes;
use crate::ordering::write_ordered;
use format::{DateRun, Eu4Date, Refusal};
use record::Record;

/// All owner changes, the earliest first and on one day those of the lowest id, with a row of four words each; returns how many.
/// Refuses a bad record by its number, and a slice that is too short by `NoRoom`: then nothing is written.
///
/// # Source
/// `province_owners` of query.rs.
pub fn province_owners(s: &[u8], out: &mut [u32]) -> Result<usize, Refusal>
    ensures { outcome_of (λ n. n) result out.new ≡ call_province_owners s.now out.old }
{
    let opened = Record::open(s)?;
    province_owners_of(opened, out)
}

/// What `province_owners` answers of an opened record.
pub fn province_owners_of(opened: Record<'_>, out: &mut [u32]) -> Result<usize, Refusal>
    ensures { outcome_of (λ n. n) result out.new ≡ call_province_owners opened.entry.bytes.now out.old }
{
    write_ordered(opened.provinces, out)
}

// How many changes are before the day, and how many are on it: their order does not matter. By one loop: two filters would find each change twice.
fn count_on(opened: Record<'_>, day: Eu4Date) -> DateRun
    ensures { result ≡ events_on (entered opened.entry.bytes.now) day }
{
    let mut first = 0;
    let mut count = 0;
    for change in Changes::new(opened.provinces) {
        first += usize::from(change.date < day);
        count += usize::from(change.date == day);
    }
    DateRun { first, count }
}

/// The run of changes with a date, among those that `province_owners` writes: with none, where it would begin, and 0. Refuses a bad record by its number,
/// and a bad date by `BadQuestion`, whatever its type says.
///
/// # Source
/// `ProvinceOwners::events_on` of query.rs.
pub fn events_on(s: &[u8], date: Eu4Date) -> Result<DateRun, Refusal>
    ensures { answer_of (λ run. run) result ≡ call_events_on s.now date.0 }
{
    let opened = Record::open(s)?;
    events_on_of(opened, date)
}

/// What `events_on` answers of an opened record.
pub fn events_on_of(opened: Record<'_>, date: Eu4Date) -> Result<DateRun, Refusal>
    ensures { answer_of (λ run. run) result ≡ call_events_on opened.entry.bytes.now date.0 }
{
    if !date.is_valid() {
        return Err(Refusal::BadQuestion);
    }
    Ok(count_on(opened, date))
}
