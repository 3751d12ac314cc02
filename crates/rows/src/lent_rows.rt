//! Rows of lent words: by an iterator, by their number from 0, and written. A number past the last row gives a row of zeros and no Option: the rules read it
//! so, and in a well-shaped chronicle no row leads there.
ghost use Rattle.std.specs.Prelude.{◌≡◌, List, ℕ, ◌/◌, ◌^◌, ◌<◌, leb, map, length, get_or, replicate};
ghost use Rattle.std.specs.Iterator.{YieldsFirst, item_count};
ghost use Rattle.std.specs.Simd.{first_chunks};
ghost use Rattle.rows.specs.RowAt.{told_left, row_put};

use std::marker::PhantomData;

/// A value that so many words tell: one at least, and not so many that their number is no size of memory. A trait of this crate, as the values are of crate
/// `format`.
pub trait Row<const WIDTH: usize> {
    // What words tell.
    ghost told: { List ℕ → Self };

    ghost some: { 0 < WIDTH };

    ghost narrow: { WIDTH < 2 ^ 16 };

    /// The value that the words of a row tell. Anybody may have written them, and reading refuses none.
    fn read(words: [u32; WIDTH]) -> Self
        ensures { result ≡ told words.entry };
}

/// A value that is written as a row of so many words.
pub trait ToRow<const WIDTH: usize> {
    // Its words.
    ghost words: { Self → List ℕ };

    /// The words of its row, in their order.
    fn to_row(self) -> [u32; WIDTH]
        ensures { result ≡ words self };
}

/// An iterator over the whole rows of lent words, which are read as they are asked for. Words behind the last whole row count for nothing.
/// Not one type with `Rows` (record): those rows are bytes, and are read by `Packed`.
#[derive(Clone, Copy)]
pub struct LentRows<'a, R, const WIDTH: usize> {
    pub(crate) rows: &'a [[u32; WIDTH]],
    pub(crate) told: PhantomData<R>,
}

impl<'a, R: Row<WIDTH>, const WIDTH: usize> LentRows<'a, R, WIDTH> {
    /// The rows of the words.
    pub fn new(words: &'a [u32]) -> Self
        ensures { told_left R.told result ≡ map R.told (first_chunks WIDTH (length words.now / WIDTH) words.now) }
    {
        LentRows {
            rows: words.as_chunks().0,
            told: PhantomData,
        }
    }

    /// How many rows are left.
    pub fn len(&self) -> usize
        ensures { result ≡ length (told_left R.told self.now) }
    {
        self.rows.len()
    }
}

impl<R: Row<WIDTH>, const WIDTH: usize> Iterator for LentRows<'_, R, WIDTH> {
    type Item = R;

    ghost next_gives = { YieldsFirst (told_left R.told) };

    ghost remaining = { item_count (told_left R.told) };

    fn next(&mut self) -> Option<R> {
        let (row, rest) = self.rows.split_first()?;
        self.rows = rest;
        Some(R::read(*row))
    }
}

/// Row number i of the words; past the last one that of zeros.
pub fn row_at<R: Row<WIDTH>, const WIDTH: usize>(words: &[u32], i: usize) -> R
    ensures { result ≡ R.told (get_or (first_chunks WIDTH (length words.now / WIDTH) words.now) i (replicate WIDTH 0)) }
{
    let rows = words.as_chunks::<WIDTH>().0;
    R::read(rows.get(i).copied().unwrap_or([0; WIDTH]))
}

/// Writes a row at the front of the cells, and says whether there was room for it; without room they stay as they are.
pub fn put<const WIDTH: usize>(row: [u32; WIDTH], out: &mut [u32]) -> bool
    ensures room { result ≡ leb WIDTH (length out.old) }
    ensures cells { out.new ≡ row_put WIDTH row.entry out.old }
{
    let Some(cells) = out.first_chunk_mut::<WIDTH>() else {
        return false;
    };
    *cells = row;
    true
}
