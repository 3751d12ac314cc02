//! The head of a record. Crate record_check reads it and tests it.
use crate::date::Eu4Date;

/// The head's numbers: version, flags, dates, and the counts of C, P, A, B, E, N, W, V, G and Y.
#[derive(Clone, Copy, Debug, PartialEq, Eq)]
pub struct Head {
    pub version: u32,
    pub flags: u32,
    pub start: Eu4Date,
    pub current: Eu4Date,
    pub countries: u32,
    pub provinces: u32,
    pub previous: u32,
    pub switches: u32,
    pub events: u32,
    pub strings: u32,
    pub wars: u32,
    pub war_events: u32,
    pub ledgers: u32,
    pub points: u32,
}
