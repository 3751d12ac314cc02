//! Rows as they stand in the bytes, each of one width, read into fields with names.
ghost use Rattle.std.specs.Prelude.{◌≡◌, List, ℕ, ◌+◌, ◌*◌, ◌^◌, ◌<◌};
ghost use Rattle.std.proofs.Common.{lit<};
ghost use Rattle.format.specs.Bytes.{le16, tag_at};
ghost use Rattle.format.specs.Head.{head_of};
ghost use Rattle.format.specs.Rows.{country_at, switch_at, province_at, owner_event_at, war_event_at, ledger_at, point_at};

use crate::date::Eu4Date;
use crate::head::Head;
use crate::rows::{OwnerEvent, Point, ProvinceId, Switch, WarEvent};
use crate::tag::CountryTag;

/// A country's row; what it owns is told by number.
#[derive(Clone, Copy, Debug, PartialEq, Eq)]
pub struct PackedCountry {
    pub tag: CountryTag,
    pub flags: u32,
    pub cities: i32,
    pub previous: u32,
    pub switches: u32,
}

/// A province's row.
#[derive(Clone, Copy, Debug, PartialEq, Eq)]
pub struct PackedProvince {
    pub id: ProvinceId,
    pub owner: CountryTag,
    pub events: u32,
}

/// A ledger name's row.
#[derive(Clone, Copy, Debug, PartialEq, Eq)]
pub struct PackedLedger {
    pub tag: CountryTag,
    pub points: u32,
}

/// What a row of so many bytes tells. Any bytes can be read: the check of a record tells which fields are good.
pub trait Packed<const WIDTH: usize>: Sized {
    ghost unpacked: { List ℕ → Self };

    fn unpack(row: &[u8; WIDTH]) -> Self
        ensures { result ≡ unpacked row.now };

    // No row is so wide that its width is no size of memory.
    ghost narrow: { WIDTH < 2 ^ 16 };
}

// 16 bits, the low byte first.
fn word16(low: u8, high: u8) -> u32
    ensures { result ≡ low + high * 256 }
{
    u32::from(u16::from_le_bytes([low, high]))
}

#[tactic(auto, unfolding(crate::specs::Bytes::le16))]
impl Packed<2> for u32 {
    ghost unpacked = { λ row. le16 row 0 };

    ghost narrow = { lit< tt };

    fn unpack(row: &[u8; 2]) -> u32 {
        word16(row[0], row[1])
    }
}

#[tactic(auto, unfolding(crate::specs::Bytes::tag_at))]
impl Packed<3> for CountryTag {
    ghost unpacked = { λ row. tag_at row 0 };

    ghost narrow = { lit< tt };

    fn unpack(row: &[u8; 3]) -> CountryTag {
        CountryTag::from_bytes_unchecked(row[0], row[1], row[2])
    }
}

#[tactic(auto, using(crate::proofs::SignedLaws::signed_word), unfolding(crate::specs::Rows::country_at, crate::specs::Bytes::tag_at, crate::specs::Bytes::le16, crate::specs::Bytes::le32))]
impl Packed<12> for PackedCountry {
    ghost unpacked = { λ row. country_at row 0 };

    ghost narrow = { lit< tt };

    fn unpack(row: &[u8; 12]) -> PackedCountry {
        PackedCountry {
            tag: CountryTag::from_bytes_unchecked(row[0], row[1], row[2]),
            flags: u32::from(row[3]),
            cities: u32::from_le_bytes([row[4], row[5], row[6], row[7]]).cast_signed(),
            previous: word16(row[8], row[9]),
            switches: word16(row[10], row[11]),
        }
    }
}

#[tactic(auto, unfolding(crate::specs::Rows::switch_at, crate::specs::Bytes::date_at, crate::specs::Bytes::le32, crate::specs::Bytes::tag_at))]
impl Packed<7> for Switch {
    ghost unpacked = { λ row. switch_at row 0 };

    ghost narrow = { lit< tt };

    fn unpack(row: &[u8; 7]) -> Switch {
        Switch {
            date: Eu4Date::from_bytes_unchecked([row[0], row[1], row[2], row[3]]),
            from: CountryTag::from_bytes_unchecked(row[4], row[5], row[6]),
        }
    }
}

#[tactic(auto, unfolding(crate::specs::Rows::province_at, crate::specs::Bytes::id_at, crate::specs::Bytes::tag_at, crate::specs::Bytes::le16))]
impl Packed<7> for PackedProvince {
    ghost unpacked = { λ row. province_at row 0 };

    ghost narrow = { lit< tt };

    fn unpack(row: &[u8; 7]) -> PackedProvince {
        PackedProvince {
            id: ProvinceId::from_word_unchecked(word16(row[0], row[1])),
            owner: CountryTag::from_bytes_unchecked(row[2], row[3], row[4]),
            events: word16(row[5], row[6]),
        }
    }
}

#[tactic(auto, unfolding(crate::specs::Rows::owner_event_at, crate::specs::Bytes::date_at, crate::specs::Bytes::tag_at, crate::specs::Bytes::le32))]
impl Packed<7> for OwnerEvent {
    ghost unpacked = { λ row. owner_event_at row 0 };

    ghost narrow = { lit< tt };

    fn unpack(row: &[u8; 7]) -> OwnerEvent {
        OwnerEvent {
            date: Eu4Date::from_bytes_unchecked([row[0], row[1], row[2], row[3]]),
            tag: CountryTag::from_bytes_unchecked(row[4], row[5], row[6]),
        }
    }
}

#[tactic(auto, unfolding(crate::specs::Rows::war_event_at, crate::specs::Bytes::date_at, crate::specs::Bytes::tag_at, crate::specs::Bytes::le32))]
impl Packed<8> for WarEvent {
    ghost unpacked = { λ row. war_event_at row 0 };

    ghost narrow = { lit< tt };

    fn unpack(row: &[u8; 8]) -> WarEvent {
        WarEvent {
            date: Eu4Date::from_bytes_unchecked([row[0], row[1], row[2], row[3]]),
            kind: u32::from(row[4]),
            tag: CountryTag::from_bytes_unchecked(row[5], row[6], row[7]),
        }
    }
}

#[tactic(auto, unfolding(crate::specs::Rows::ledger_at, crate::specs::Bytes::tag_at, crate::specs::Bytes::le16))]
impl Packed<5> for PackedLedger {
    ghost unpacked = { λ row. ledger_at row 0 };

    ghost narrow = { lit< tt };

    fn unpack(row: &[u8; 5]) -> PackedLedger {
        PackedLedger {
            tag: CountryTag::from_bytes_unchecked(row[0], row[1], row[2]),
            points: word16(row[3], row[4]),
        }
    }
}

#[tactic(auto, unfolding(crate::specs::Rows::point_at, crate::specs::Bytes::le16, crate::specs::Bytes::le32))]
impl Packed<6> for Point {
    ghost unpacked = { λ row. point_at row 0 };

    ghost narrow = { lit< tt };

    fn unpack(row: &[u8; 6]) -> Point {
        Point {
            year: word16(row[0], row[1]),
            value: u32::from_le_bytes([row[2], row[3], row[4], row[5]]),
        }
    }
}

#[tactic(auto, unfolding(crate::specs::Head::head_of, crate::specs::Bytes::le16, crate::specs::Bytes::le32, crate::specs::Bytes::date_at))]
impl Packed<44> for Head {
    ghost unpacked = { λ row. head_of row };

    ghost narrow = { lit< tt };

    fn unpack(row: &[u8; 44]) -> Head {
        Head {
            version: word16(row[3], row[4]),
            flags: u32::from(row[5]),
            start: Eu4Date::from_bytes_unchecked([row[6], row[7], row[8], row[9]]),
            current: Eu4Date::from_bytes_unchecked([row[10], row[11], row[12], row[13]]),
            countries: word16(row[14], row[15]),
            provinces: word16(row[16], row[17]),
            previous: u32::from_le_bytes([row[18], row[19], row[20], row[21]]),
            switches: u32::from_le_bytes([row[22], row[23], row[24], row[25]]),
            events: u32::from_le_bytes([row[26], row[27], row[28], row[29]]),
            strings: word16(row[30], row[31]),
            wars: word16(row[32], row[33]),
            war_events: u32::from_le_bytes([row[34], row[35], row[36], row[37]]),
            ledgers: word16(row[38], row[39]),
            points: u32::from_le_bytes([row[40], row[41], row[42], row[43]]),
        }
    }
}
