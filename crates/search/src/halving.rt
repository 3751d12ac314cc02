//! The count of sorted keys up to a number, found by halving. No branch hangs on a key: such a branch is guessed wrong half of the time.
//! A table of starts, one for each cell of keys, spares most of the steps. What it holds are hints, each held against the keys before use.
ghost use Rattle.std.specs.Prelude.{◌≡◌, true, ◌+◌, ◌*◌, ◌/◌, ◌<◌, ◌≤◌, leb, length};
ghost use Rattle.std.specs.List.{prefix_len};
ghost use Rattle.sorting.specs.Sort.{sort_by};
ghost use Rattle.search.specs.Halving.{CountsBelow, count_below, in_cell_before, starts_of};

use std::ops::Range;

// The highest of 64 bits: half of what they hold.
const TOP_BIT: u64 = 1 << 63;

// A cell holds keys with the same first 12 bits.
const CELL: u64 = 1 << 52;

/// How many starts a table has: one for each cell of 64-bit keys, and one behind the last.
pub const CELLS: usize = (1 << 12) + 1;

// How far a search goes on: by `half` if the key is at most x, else not at all. `top` is x / 2 + 2^63.
fn step(key: u64, top: u64, half: usize) -> usize
    requires { 9223372036854775808 ≤ top }
    ensures { (key / 2 + 9223372036854775808 ≤ top → result ≡ half)
        × (top < key / 2 + 9223372036854775808 → result ≡ 0) }
{
    ((top - key / 2) / TOP_BIT) as usize * half
}

// How many of the keys, which are in order, are at most x, an odd number. `partition_point` takes more than twice the time: of 60,000 searches among
// 20,000 keys 4.4 ms and this 1.8.
fn count_up_to(keys: &[u64], x: u64) -> usize
    ensures { CountsBelow keys.now (x / 2 * 2 + 2) result }
{
    let top = x / 2 + TOP_BIT;
    let mut base = 0;
    let mut size = keys.len();
    while 1 < size {
        let half = size / 2;
        base += step(keys[base + half - 1], top, half);
        size -= half;
    }
    if size == 0 {
        return base;
    }
    base + step(keys[base], top, 1)
}

// Whether the keys, which are in order, are all at most x, an odd number, as the last shows.
fn are_at_most(keys: &[u64], x: u64) -> bool
    ensures { result ≡ true → sort_by leb keys.now ≡ keys.now → length keys.now ≤ count_below (x / 2 * 2 + 2) keys.now }
{
    keys.last().is_none_or(|key| *key <= x)
}

// Whether they are all above x, as the first shows.
fn are_above(keys: &[u64], x: u64) -> bool
    ensures { result ≡ true → sort_by leb keys.now ≡ keys.now → count_below (x / 2 * 2 + 2) keys.now ≤ 0 }
{
    keys.first().is_none_or(|key| x / 2 < *key / 2)
}

// How many of the keys, which are in order, are at most x: searched for between two hints, if the keys beside them show it, else among all.
fn count_hinted(keys: &[u64], x: u64, hints: Range<usize>) -> usize
    ensures { CountsBelow keys.now (x / 2 * 2 + 2) result }
{
    let from = hints.start;
    let end = hints.end;
    if let Some(part) = keys.get(from..end) {
        if are_at_most(&keys[..from], x) & are_above(&keys[end..], x) {
            return from + count_up_to(part, x);
        }
    }
    count_up_to(keys, x)
}

/// Keys that are in order.
#[derive(Clone, Copy)]
pub struct SortedKeys<'a> {
    pub keys: &'a [u64],
    pub ghost sorted: { sort_by leb keys.now ≡ keys.now },
}

impl SortedKeys<'_> {
    /// How many keys are at most x, an odd number: the starts of x's cell and of the next one are the hints.
    pub fn count_near(self, starts: &[u64], x: u64) -> usize
        ensures value { result ≡ count_below (x / 2 * 2 + 2) self.entry.keys.now }
        ensures inside { result ≤ length self.entry.keys.now }
    {
        let cell = (x / CELL) as usize;
        if cell + 1 < starts.len() {
            return count_hinted(
                self.keys,
                x,
                starts[cell] as usize..starts[cell + 1] as usize,
            );
        }
        count_up_to(self.keys, x)
    }

    /// How many keys are below x, an even number: likely not fewer than the hints' start and not more than their end.
    pub fn count_between(self, x: u64, hints: Range<usize>) -> usize
        ensures value { result ≡ count_below (x / 2 * 2) self.entry.keys.now }
        ensures inside { result ≤ length self.entry.keys.now }
    {
        if x < 2 {
            return 0;
        }
        count_hinted(self.keys, x - 2, hints)
    }

    /// How many keys are below x, an even number.
    pub fn count_below(self, x: u64) -> usize
        ensures value { result ≡ count_below (x / 2 * 2) self.entry.keys.now }
        ensures inside { result ≤ length self.entry.keys.now }
    {
        if x < 2 {
            return 0;
        }
        count_up_to(self.keys, x - 2)
    }
}

// How many of the keys at the front are in cells before this one.
fn count_before(keys: &[u64], cell: usize) -> usize
    ensures value { result ≡ prefix_len (in_cell_before cell) keys.now }
    ensures within { result ≤ length keys.now }
{
    keys.iter()
        .take_while(|key| **key / CELL < cell as u64)
        .count()
}

/// Sets each cell to the number of keys at the front that are in cells before it: in sorted keys its own begin there.
pub fn index_block(keys: &[u64], starts: &mut [u64])
    ensures { starts.new ≡ starts_of keys.now (length starts.old) }
{
    let mut at = 0;
    for (cell, start) in starts.iter_mut().enumerate() {
        at += count_before(&keys[at..], cell);
        *start = at as u64;
    }
}
