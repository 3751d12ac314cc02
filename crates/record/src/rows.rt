//! Rows of one width that own nothing, one by one in their order.
ghost use Rattle.std.specs.Prelude.{◌≡◌, length, map, take, drop};
ghost use Rattle.std.specs.Iterator.{YieldsFirst, item_count};

use format::{CountryTag, OwnerEvent, Packed, Point, Switch, WarEvent};
use std::marker::PhantomData;

/// An iterator over rows, which are read as they are asked for.
#[derive(Clone, Copy)]
pub struct Rows<'a, R, const WIDTH: usize> {
    pub(crate) packed: &'a [[u8; WIDTH]],
    pub(crate) told: PhantomData<R>,
}

/// How many bytes a row of a switch, of an owner event or of a province takes. One of a country takes more, and so does the head.
pub const ROW_BYTES: usize = 7;

/// A country's previous tags.
pub type PreviousTags<'a> = Rows<'a, CountryTag, 3>;

/// A country's switches.
pub type Switches<'a> = Rows<'a, Switch, ROW_BYTES>;

/// A province's owner events.
pub type OwnerEvents<'a> = Rows<'a, OwnerEvent, ROW_BYTES>;

/// A war's events.
pub type WarEvents<'a> = Rows<'a, WarEvent, 8>;

/// A ledger's points.
pub type Points<'a> = Rows<'a, Point, 6>;

impl<'a, R: Packed<WIDTH>, const WIDTH: usize> Rows<'a, R, WIDTH> {
    // The rows that stand so in the bytes.
    pub(crate) fn new(packed: &'a [[u8; WIDTH]]) -> Self
        ensures { map R.unpacked result.packed.now ≡ map R.unpacked packed.now }
    {
        Rows {
            packed,
            told: PhantomData,
        }
    }

    /// How many rows are left.
    pub fn len(&self) -> usize
        ensures { result ≡ length (map R.unpacked self.now.packed.now) }
    {
        self.packed.len()
    }

    // Takes the first n rows away and gives them; as far as there are any.
    pub(crate) fn take_front(&mut self, n: usize) -> Self
        ensures taken { map R.unpacked result.packed.now ≡ take n (map R.unpacked self.old.packed.now) }
        ensures left { map R.unpacked self.new.packed.now ≡ drop n (map R.unpacked self.old.packed.now) }
    {
        let (front, rest) = self.packed.split_at(n.min(self.packed.len()));
        self.packed = rest;
        Rows::new(front)
    }
}

impl<'a, R: Packed<WIDTH>, const WIDTH: usize> Iterator for Rows<'a, R, WIDTH> {
    type Item = R;

    ghost next_gives = { YieldsFirst (λ rows. map R.unpacked rows.packed.now) };

    ghost remaining = { item_count (λ rows. map R.unpacked rows.packed.now) };

    fn next(&mut self) -> Option<R> {
        let (row, rest) = self.packed.split_first()?;
        self.packed = rest;
        Some(R::unpack(row))
    }
}
