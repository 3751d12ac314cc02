//! Number 7: a country tag or a province id twice, or an id above P. Marks find a repeat in one pass: bits for the many tags,
//! and for the few ids a whole byte each, which is quicker.
ghost use Rattle.std.specs.Prelude.{◌≡◌, ◌+◌, ◌-◌, ◌*◌, ◌/◌, ◌%◌, ◌||◌, true, ltb, map, length, ◌≤◌};
ghost use Rattle.lists.specs.Lists.{All, any_of, twice};
ghost use Rattle.format.specs.Tags.{is_tag};
ghost use Rattle.format.specs.Rows.{country_at, province_at};
ghost use Rattle.format.specs.RecordNumber.{tag_twice, id_twice_or_above};
ghost use Rattle.record_check.specs.Few.{FewRows};

use crate::bitset;
use crate::parsed::Parsed;
use format::{CountryTag, MOST_PROVINCES, Packed, PackedCountry, PackedProvince};

// A tag's place among all tags, of 76 for each byte, where `-` is 45 and the next tag byte 48: the fewer there are, the smaller the stack that a
// thread needs for the check. By division, as the test of a tag is: the promise is of any word.
fn place(tag: CountryTag) -> usize
    ensures { result ≡ (tag.0 / 65536 - 47) * 5776 + (tag.0 / 256 % 256 - 47) * 76 + (tag.0 % 256 - 47) }
{
    let w = u32::from(tag);
    let a = (w / 65536).saturating_sub(47);
    let b = (w / 256 % 256).saturating_sub(47);
    let c = (w % 256).saturating_sub(47);
    (a * 5776 + b * 76 + c) as usize
}

// Whether a tag stands twice among countries, whose tags are good.
fn tag_twice(rows: &[[u8; 12]]) -> bool
    requires { All (λ row. is_tag (country_at row 0).tag ≡ true) rows.now }
    ensures { result ≡ twice (map (λ row. (country_at row 0).tag.0) rows.now) }
{
    // No country: nothing to mark, and the set need not be made.
    if rows.is_empty() {
        return false;
    }
    let mut seen = [0u64; 6859];
    for row in rows {
        let p = place(PackedCountry::unpack(row).tag);
        if bitset::contains(&seen, p) {
            return true;
        }
        bitset::insert(&mut seen, p);
    }
    false
}

// Whether an id stands twice among provinces, or is above their number.
fn id_twice_or_above(rows: &[[u8; 7]]) -> bool
    requires { length rows.now ≤ MOST_PROVINCES }
    ensures { result ≡ twice (map (λ row. (province_at row 0).id.0) rows.now) || any_of (ltb (length rows.now)) (map (λ row. (province_at row 0).id.0) rows.now) }
{
    let n = rows.len();
    let mut seen = [false; MOST_PROVINCES + 1];
    for row in rows {
        let id = u32::from(PackedProvince::unpack(row).id) as usize;
        let above = n < id;
        if above {
            return true;
        }
        if seen[id] {
            return true;
        }
        seen[id] = true;
    }
    false
}

// Whether anything stands twice that may not, or an id is above the number of provinces. The countries' fields are good.
pub(crate) fn repeated(parsed: Parsed) -> bool
    requires few { FewRows parsed.sections }
    requires good_tags { All (λ row. is_tag (country_at row 0).tag ≡ true) parsed.sections.countries.now }
    ensures { result ≡ tag_twice parsed.entry.bytes.now || id_twice_or_above parsed.entry.bytes.now }
{
    let sections = parsed.sections;
    tag_twice(sections.countries) | id_twice_or_above(sections.provinces)
}
