//! Numbers 4, 5, 6 and 9: the first bad field in file order.
ghost use Rattle.std.specs.Prelude.{◌≡◌};
ghost use Rattle.format.specs.RefusalNumber.{number_of};
ghost use Rattle.format.specs.RecordNumber.{fields_number};

use crate::opening;
use crate::parsed::Parsed;
use crate::rows::{points_checked, rows_checked};
use crate::tables::{Tables, fill_days, fill_tag_bytes};
use format::{
    CountryTag, OwnerEvent, PackedCountry, PackedLedger, PackedProvince, Refusal, Switch, WarEvent,
};

// The head's fields, then those of each section's rows in the order of the file, by tables that are made once. The first bad one refuses.
pub(crate) fn check_fields(parsed: Parsed) -> Result<(), Refusal>
    ensures { number_of result ≡ fields_number parsed.entry.bytes.now }
{
    opening::head_checked(parsed.head)?;
    let sections = parsed.sections;
    let mut tag_bytes = [false; 256];
    let mut days = [false; 10000];
    fill_tag_bytes(&mut tag_bytes);
    fill_days(&mut days);
    let tables = Tables {
        tag_bytes: &tag_bytes,
        days: &days,
    };
    rows_checked::<PackedCountry, 12>(sections.countries, &tables)?;
    rows_checked::<CountryTag, 3>(sections.previous, &tables)?;
    rows_checked::<Switch, 7>(sections.switches, &tables)?;
    rows_checked::<PackedProvince, 7>(sections.provinces, &tables)?;
    rows_checked::<OwnerEvent, 7>(sections.events, &tables)?;
    rows_checked::<WarEvent, 8>(sections.war_events, &tables)?;
    rows_checked::<PackedLedger, 5>(sections.ledgers, &tables)?;
    points_checked(sections.points)
}
