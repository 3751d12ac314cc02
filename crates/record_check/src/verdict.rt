//! The check of a record, and the head and the rows of an accepted one.
ghost use Rattle.std.specs.Prelude.{◌≡◌};
ghost use Rattle.format.specs.RefusalNumber.{number_of};
ghost use Rattle.format.specs.RecordNumber.{refusal};
ghost use Rattle.record_check.specs.Accepted.{RightlyAccepted};

use crate::parsed::Parsed;
use crate::{fields, opening, repeats, sizes};
use format::Refusal;

/// The head of an accepted record, and the rows of its sections; else its refusal by the order of the numbers 1, 2, 3; then 4, 5, 6, 9; then 7, 8. Any
/// bytes may be given.
pub fn accept(s: &[u8]) -> Result<Parsed<'_>, Refusal>
    ensures { RightlyAccepted s.now result }
{
    if !opening::opens_record(s) {
        return Err(Refusal::NotARecord);
    }
    if !opening::version_known(opening::read_head(s)) {
        return Err(Refusal::UnknownVersion);
    }
    let parsed = sizes::sizes_checked(s)?;
    fields::check_fields(parsed)?;
    if repeats::repeated(parsed) {
        return Err(Refusal::Repeated);
    }
    if opening::ends_early(parsed.head) {
        return Err(Refusal::DatesReversed);
    }
    Ok(parsed)
}

/// The check alone.
pub fn check(s: &[u8]) -> Result<(), Refusal>
    ensures { number_of result ≡ refusal s.now }
{
    accept(s)?;
    Ok(())
}
