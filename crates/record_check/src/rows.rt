//! The fields of each kind of row, in the order of their offsets: the first bad one refuses it.
ghost use Rattle.std.specs.Prelude.{◌≡◌, ℕ, eqb, map};
ghost use Rattle.lists.specs.Lists.{all_of};
ghost use Rattle.format.specs.RefusalNumber.{number_of};
ghost use Rattle.format.specs.RecordNumber.{first_in, date_number, tag_number, year_number, country_number, switch_number, owner_event_number, war_event_number};

use crate::tables::Tables;
use crate::{flags, numbers};
use format::{
    CountryTag, Eu4Date, OwnerEvent, Packed, PackedCountry, PackedLedger, PackedProvince, Point,
    Refusal, Switch, WarEvent,
};

// So many rows are read before it is asked whether they are good.
const BLOCK_ROWS: usize = 64;

// What can be tested: a row, or a field that several rows have. The number is that of the first bad field, 0 where none is bad.
pub(crate) trait Checked: Sized {
    ghost number: { Self → ℕ };

    // Whether every field is good, by the tables, and without a way out behind the first bad one: most rows are good.
    fn passes(self, tables: &Tables) -> bool
        ensures { result ≡ eqb (number self) 0 };

    // The refusal of the first bad field.
    fn checked(self) -> Result<(), Refusal>
        ensures { number_of result ≡ number self };
}

#[tactic(auto, using(crate::proofs::GoodLaws::good_one))]
impl Checked for Eu4Date {
    ghost number = { date_number };

    fn passes(self, tables: &Tables) -> bool {
        tables.good_date(self)
    }

    fn checked(self) -> Result<(), Refusal> {
        if self.is_valid() {
            Ok(())
        } else {
            Err(Refusal::BadDate)
        }
    }
}

#[tactic(auto, using(crate::proofs::GoodLaws::good_one))]
impl Checked for CountryTag {
    ghost number = { tag_number };

    fn passes(self, tables: &Tables) -> bool {
        tables.good_tag(self)
    }

    fn checked(self) -> Result<(), Refusal> {
        if self.is_valid() {
            Ok(())
        } else {
            Err(Refusal::BadTag)
        }
    }
}

#[tactic(auto, using(format::proofs::FirstLaws::first_one, crate::proofs::GoodLaws::good_two), unfolding(format::specs::RecordNumber::country_number, format::specs::RecordNumber::first_of))]
impl Checked for PackedCountry {
    ghost number = { country_number };

    fn passes(self, tables: &Tables) -> bool {
        tables.good_tag(self.tag) & flags::flags_defined(self.flags, 3)
    }

    fn checked(self) -> Result<(), Refusal> {
        self.tag.checked()?;
        if flags::flags_defined(self.flags, 3) {
            Ok(())
        } else {
            Err(Refusal::UndefinedFlag)
        }
    }
}

#[tactic(auto, using(format::proofs::FirstLaws::first_one, crate::proofs::GoodLaws::good_two), unfolding(format::specs::RecordNumber::switch_number, format::specs::RecordNumber::first_of))]
impl Checked for Switch {
    ghost number = { switch_number };

    fn passes(self, tables: &Tables) -> bool {
        tables.good_date(self.date) & tables.good_tag(self.from)
    }

    fn checked(self) -> Result<(), Refusal> {
        let Switch { date, from } = self;
        date.checked()?;
        from.checked()
    }
}

#[tactic(auto, using(crate::proofs::GoodLaws::good_one))]
impl Checked for PackedProvince {
    ghost number = { λ row. tag_number row.owner };

    fn passes(self, tables: &Tables) -> bool {
        tables.good_tag(self.owner)
    }

    fn checked(self) -> Result<(), Refusal> {
        self.owner.checked()
    }
}

#[tactic(auto, using(format::proofs::FirstLaws::first_one, crate::proofs::GoodLaws::good_two), unfolding(format::specs::RecordNumber::owner_event_number, format::specs::RecordNumber::first_of))]
impl Checked for OwnerEvent {
    ghost number = { owner_event_number };

    fn passes(self, tables: &Tables) -> bool {
        tables.good_date(self.date) & tables.good_tag(self.tag)
    }

    fn checked(self) -> Result<(), Refusal> {
        let OwnerEvent { date, tag } = self;
        date.checked()?;
        tag.checked()
    }
}

#[tactic(auto, using(format::proofs::FirstLaws::first_one, crate::proofs::GoodLaws::good_three), unfolding(format::specs::RecordNumber::war_event_number, format::specs::RecordNumber::first_of))]
impl Checked for WarEvent {
    ghost number = { war_event_number };

    fn passes(self, tables: &Tables) -> bool {
        tables.good_date(self.date) & numbers::kind_defined(self.kind) & tables.good_tag(self.tag)
    }

    fn checked(self) -> Result<(), Refusal> {
        let WarEvent { date, kind, tag } = self;
        date.checked()?;
        if !numbers::kind_defined(kind) {
            return Err(Refusal::UndefinedFlag);
        }
        tag.checked()
    }
}

#[tactic(auto, using(crate::proofs::GoodLaws::good_one))]
impl Checked for PackedLedger {
    ghost number = { λ row. tag_number row.tag };

    fn passes(self, tables: &Tables) -> bool {
        tables.good_tag(self.tag)
    }

    fn checked(self) -> Result<(), Refusal> {
        self.tag.checked()
    }
}

// Whether every row is good. No way out of the loop: so it is compiled to one jump a row.
fn all_good<R: Packed<WIDTH> + Checked, const WIDTH: usize>(
    rows: &[[u8; WIDTH]],
    tables: &Tables,
) -> bool
    ensures { result ≡ all_of (λ row. eqb (R.number (R.unpacked row)) 0) rows.now }
{
    let mut good = true;
    for row in rows {
        good &= R::unpack(row).passes(tables);
    }
    good
}

// The refusal of the first bad row, found by testing field after field.
fn first_bad<R: Packed<WIDTH> + Checked, const WIDTH: usize>(
    rows: &[[u8; WIDTH]],
) -> Result<(), Refusal>
    ensures { number_of result ≡ first_in R.number (map R.unpacked rows.now) }
{
    for row in rows {
        R::unpack(row).checked()?;
    }
    Ok(())
}

// The rows of a section, in order and by blocks: which of them is bad is asked only of a block with a bad one, so that a refused section takes no longer
// than an accepted one, but for the second reading of that block.
pub(crate) fn rows_checked<R: Packed<WIDTH> + Checked, const WIDTH: usize>(
    rows: &[[u8; WIDTH]],
    tables: &Tables,
) -> Result<(), Refusal>
    ensures { number_of result ≡ first_in R.number (map R.unpacked rows.now) }
{
    for block in rows.chunks(BLOCK_ROWS) {
        if !all_good::<R, WIDTH>(block, tables) {
            first_bad::<R, WIDTH>(block)?;
        }
    }
    Ok(())
}

// The points, which are most of a record's bytes: whichever of them is bad refuses with the same number, so the latest year tells.
pub(crate) fn points_checked(rows: &[[u8; 6]]) -> Result<(), Refusal>
    ensures { number_of result ≡ first_in (λ p. year_number p.year) (map ⟦<Point as Packed<6>>⟧.unpacked rows.now) }
{
    let mut latest = 0;
    for row in rows {
        latest = latest.max(Point::unpack(row).year);
    }
    if numbers::year_allowed(latest) {
        Ok(())
    } else {
        Err(Refusal::LedgerYear)
    }
}
