//! What a stored list has: bytes, and numbers of 32 bits, low byte first.
ghost use Rattle.std.specs.Prelude.{◌≡◌, ◌≢◌, ◌*◌, ◌≤◌, ◌++◌, [], ℕ, List, length, map, Ok, Err, IfOk, OnOk, OnErr, MatchOption};
ghost use Rattle.std.specs.Int.{to_le_bytes, w32};
ghost use Rattle.std.specs.Io.KnownBytes.{Consumes, IsAtEnd};
ghost use Rattle.stored_input.specs.Reading.{BreaksOff, number_bytes};

use crate::{ReadFailed, try_read_full};
use std::io::Read;

// So many numbers are read at a time: a read for each takes longer than all that is done with it.
const BLOCK_NUMBERS: usize = 4096;

// Where no more are wanted, room for so many is cleared first.
const FEW_NUMBERS: usize = 512;

/// A list that ends within a case, or a case that none can be.
#[derive(Clone, Copy, Debug, PartialEq, Eq)]
pub struct BrokenOff;

impl From<ReadFailed> for BrokenOff {
    fn from(_failed: ReadFailed) -> BrokenOff {
        BrokenOff
    }
}

/// Why a replay stops in front of a list's end.
#[derive(Clone, Copy, Debug, PartialEq, Eq)]
pub enum Stop {
    /// The list ends within a case, or has one that none can be.
    BrokenOff,

    /// A read failed where a case would begin.
    Unread,
}

impl From<BrokenOff> for Stop {
    fn from(_broken: BrokenOff) -> Stop {
        Stop::BrokenOff
    }
}

impl From<ReadFailed> for Stop {
    fn from(failed: ReadFailed) -> Stop {
        // Behind the first bytes of a case the list breaks off in it.
        match failed.after {
            0 => Stop::Unread,
            _ => Stop::BrokenOff,
        }
    }
}

/// What stands in a list, each in as many bytes.
pub trait Stored: Sized {
    ghost bytes_of: { List Self → List ℕ };

    // Fills the buffer with the next ones. Of an error nothing is promised.
    fn fill<R: Read>(list: &mut R, buf: &mut [Self]) -> Result<(), BrokenOff>
        ensures { OnOk result (Consumes (R.remaining list.old) (R.remaining list.new) (bytes_of buf.new)) };
}

/// What stands in a list, each in as many bytes, and is read up to where the list breaks off.
pub trait StoredToEnd: Sized {
    ghost bytes_of: { List Self → List ℕ };

    // Fills the buffer with the next ones. Where the list breaks off in them, what came is read.
    fn fill_to_end<R: Read>(list: &mut R, buf: &mut [Self]) -> Result<(), BrokenOff>
        ensures read { OnOk result (Consumes (R.remaining list.old) (R.remaining list.new) (bytes_of buf.new)) }
        ensures broken { OnErr result (BreaksOff (R.remaining list.old) (R.remaining list.new) (length (bytes_of buf.new))) };
}

// What is read up to where a list breaks off is read as any element is.
impl<T: StoredToEnd> Stored for T {
    ghost bytes_of = { T.bytes_of };

    fn fill<R: Read>(list: &mut R, buf: &mut [T]) -> Result<(), BrokenOff> {
        T::fill_to_end(list, buf)
    }
}

impl StoredToEnd for u8 {
    ghost bytes_of = { λ bytes. bytes };

    fn fill_to_end<R: Read>(list: &mut R, buf: &mut [u8]) -> Result<(), BrokenOff> {
        if try_read_full(list, buf)? < buf.len() {
            return Err(BrokenOff);
        }
        Ok(())
    }
}

impl StoredToEnd for u32 {
    ghost bytes_of = { number_bytes };

    fn fill_to_end<R: Read>(list: &mut R, buf: &mut [u32]) -> Result<(), BrokenOff> {
        let mut at = 0;
        while at < buf.len() {
            let n = (buf.len() - at).min(BLOCK_NUMBERS);
            fill_block(list, &mut buf[at..at + n])?;
            at += n;
        }
        Ok(())
    }
}

// Fills a block with the next numbers.
fn fill_block<R: Read>(list: &mut R, numbers: &mut [u32]) -> Result<(), BrokenOff>
    requires { length numbers.old ≤ BLOCK_NUMBERS }
    ensures read { OnOk result (Consumes (R.remaining list.old) (R.remaining list.new) (number_bytes numbers.new)) }
    ensures broken { OnErr result (BreaksOff (R.remaining list.old) (R.remaining list.new) (length (number_bytes numbers.new))) }
{
    if numbers.len() <= FEW_NUMBERS {
        return fill_by::<2048, R>(list, numbers);
    }
    fill_by::<16384, R>(list, numbers)
}

// Fills it all by one read where the list gives as much, by way of so many bytes.
fn fill_by<const BYTES: usize, R: Read>(list: &mut R, numbers: &mut [u32]) -> Result<(), BrokenOff>
    requires enough { 4 * length numbers.old ≤ BYTES }
    requires possible { BYTES ≤ 16384 }
    ensures read { OnOk result (Consumes (R.remaining list.old) (R.remaining list.new) (number_bytes numbers.new)) }
    ensures broken { OnErr result (BreaksOff (R.remaining list.old) (R.remaining list.new) (length (number_bytes numbers.new))) }
{
    let mut bytes = [0u8; BYTES];
    let part = &mut bytes[..4 * numbers.len()];
    u8::fill_to_end(list, part)?;
    put_numbers(part.as_chunks().0, numbers);
    Ok(())
}

// Writes the numbers of four bytes each.
fn put_numbers(chunks: &[[u8; 4]], numbers: &mut [u32])
    requires { length chunks.now ≡ length numbers.old }
    ensures { map (to_le_bytes w32) numbers.new ≡ chunks.now }
{
    for i in 0..numbers.len() {
        numbers[i] = number_from_bytes(chunks[i]);
    }
}

// The number of four bytes.
#[tactic(auto, using(std::proofs::lemmas::Nat::le_bytes_4))]
fn number_from_bytes(bytes: [u8; 4]) -> u32
    ensures { to_le_bytes w32 result ≡ bytes }
{
    u32::from_le_bytes(bytes)
}

/// The next number, nothing at the list's end.
pub fn next_number<R: Read>(list: &mut R) -> Result<Option<u32>, Stop>
    ensures { IfOk result (λ r. MatchOption r
        (Consumes (R.remaining list.old) (R.remaining list.new) [] × IsAtEnd (R.remaining list.new))
        (λ n. Consumes (R.remaining list.old) (R.remaining list.new) (to_le_bytes w32 n))) }
{
    let mut bytes = [0u8; 4];
    match try_read_full(list, &mut bytes)? {
        0 => Ok(None),
        4 => Ok(Some(number_from_bytes(bytes))),
        _ => Err(Stop::BrokenOff),
    }
}

/// Reads the next n into a buffer. More than it holds no case has.
pub fn read_part<'a, T: Stored, R: Read>(
    list: &mut R,
    n: usize,
    buf: &'a mut [T],
) -> Result<&'a [T], BrokenOff>
    ensures { IfOk result (λ part. (length part.now ≡ n) × Consumes (R.remaining list.old) (R.remaining list.new) (T.bytes_of part.now)) }
{
    let part = buf.get_mut(..n).ok_or(BrokenOff)?;
    T::fill(list, part)?;
    Ok(part)
}

/// The next N numbers. Where the list breaks off in them, what came is read.
pub fn read_numbers<const N: usize, R: Read>(list: &mut R) -> Result<[u32; N], BrokenOff>
    ensures read { IfOk result (λ ns. Consumes (R.remaining list.old) (R.remaining list.new) (number_bytes ns)) }
    ensures broken { OnErr result (BreaksOff (R.remaining list.old) (R.remaining list.new) (4 * N)) }
{
    let mut numbers = [0u32; N];
    u32::fill_to_end(list, &mut numbers)?;
    Ok(numbers)
}

/// Takes the first n off those that are left.
pub fn take_part<'a, T>(left: &mut &'a [T], n: usize) -> Result<&'a [T], BrokenOff>
    ensures { IfOk result (λ part. (length part.now ≡ n) × (left.old.now ≡ part.now ++ left.new.now)) }
{
    left.split_off(..n).ok_or(BrokenOff)
}

/// An answer as a list stores it: the number of its refusal, or 0 and a value.
pub fn stored_answer<T: Drop>(number: u32, value: T) -> Result<T, u32>
    ensures given { number ≡ 0 → result ≡ Ok value }
    ensures refused { number ≢ 0 → result ≡ Err number }
{
    if number == 0 { Ok(value) } else { Err(number) }
}
