//! Number 3: limits, totals and length.
ghost use Rattle.std.specs.Prelude.{◌≡◌, ℕ, ◌≤◌, eqb, map, IfOk, length};
ghost use Rattle.lists.specs.Lists.{sum_of};
ghost use Rattle.format.specs.Rows.{strings_end};
ghost use Rattle.format.specs.RecordNumber.{totals_agree, sizes_number};
ghost use Rattle.format.specs.RefusalNumber.{number_of};
ghost use Rattle.record_check.specs.Few.{FewRows};

use crate::parsed::Parsed;
use crate::{opening, sections};
use format::{MOST_PROVINCES, Packed, PackedCountry, PackedLedger, PackedProvince, Refusal};

// The sum of a count in each row. No section whose rows own others may have more rows than the provinces. By a loop: of a
// generic closure without clauses of its own a proof knows nothing, so that `sum` over `map` is not proved.
fn total<R: Packed<WIDTH>, const WIDTH: usize, F: Fn(R) -> u32>(
    rows: &[[u8; WIDTH]],
    count: F,
) -> usize
    requires callable { F.IsAlwaysCallable count }
    requires few { length rows.now ≤ MOST_PROVINCES }
    ensures { (number : R → ℕ) → ((row : R) (n : ℕ) → F.post count row n → n ≡ number row) → result ≡ sum_of number (map R.unpacked rows.now) }
{
    let mut sum = 0;
    for row in rows {
        sum += count(R::unpack(row)) as usize;
    }
    sum
}

// The rows that own others count as many as the head says.
fn totals_agree(parsed: Parsed) -> bool
    requires { FewRows parsed.sections }
    ensures { result ≡ totals_agree parsed.entry.bytes.now }
{
    let head = parsed.head;
    let sections = parsed.sections;
    (total(sections.countries, |row: PackedCountry| row.previous) == head.previous as usize)
        & (total(sections.countries, |row: PackedCountry| row.switches) == head.switches as usize)
        & (total(sections.provinces, |row: PackedProvince| row.events) == head.events as usize)
        & (total(sections.wars, |row: u32| row) == head.war_events as usize)
        & (total(sections.ledgers, |row: PackedLedger| row.points) == head.points as usize)
}

// Whether the bytes are just so many strings. It cuts a string off as `Strings::next` (record) does, in two lines: a function of both would promise as
// much as either.
fn strings_fill(bytes: &[u8], n: u32) -> bool
    ensures { result ≡ eqb (strings_end bytes.now 0 n) (length bytes.now) }
{
    let mut rest = bytes;
    for _ in 0..n {
        let Some((len, behind)) = rest.split_first() else {
            return false;
        };
        let Some((_, next)) = behind.split_at_checked(usize::from(*len)) else {
            return false;
        };
        rest = next;
    }
    rest.is_empty()
}

// The head and the sections, where no count is above its limit, the totals agree with the head, and the rows need exactly the bytes that are there.
pub(crate) fn sizes_checked(s: &[u8]) -> Result<Parsed<'_>, Refusal>
    ensures number { number_of result ≡ sizes_number s.now }
    ensures bytes { IfOk result (λ p. p.bytes.now ≡ s.now) }
{
    let head = opening::read_head(s);
    if !opening::within_limits(head) {
        return Err(Refusal::SizesDisagree);
    }
    let sections = sections::sections_of(s, head).ok_or(Refusal::SizesDisagree)?;
    let parsed = Parsed {
        bytes: s,
        head,
        sections,
    };
    if totals_agree(parsed) & strings_fill(sections.strings, head.strings) {
        Ok(parsed)
    } else {
        Err(Refusal::SizesDisagree)
    }
}
