//! A stored vector: a record, a chronicle that is lent, what is asked about them, and the answer.
use crate::asked::Asked;
use crate::single::SINGLE_WIDTH;
use stored_input::{BrokenOff, take_part};

// How many numbers a head has.
pub(crate) const HEAD: usize = 10;

#[derive(Clone, Copy)]
pub(crate) struct Vector<'a> {
    pub(crate) record: &'a [u8],
    pub(crate) nations: &'a [u32],
    pub(crate) entries: &'a [u32],

    // Asked one at a time.
    pub(crate) questions: &'a [[u32; SINGLE_WIDTH]],
    pub(crate) asked: Asked<'a>,

    // How many cells are lent for the answer, the number of its refusal or 0, and what stands in the cells afterwards.
    pub(crate) room: usize,
    pub(crate) number: u32,
    pub(crate) words: &'a [u32],
    pub(crate) is_falsified: bool,
}

impl<'a> Vector<'a> {
    // The vector of a head, of the numbers behind it, which it tells how to part, and of a record.
    pub(crate) fn new(
        head: [u32; HEAD],
        numbers: &'a [u32],
        record: &'a [u8],
    ) -> Result<Vector<'a>, BrokenOff> {
        let [
            kind,
            falsified,
            nations,
            entries,
            questions,
            besides,
            room,
            number,
            words,
            _,
        ] = head;
        let mut left = numbers;
        let nations = take_part(&mut left, nations as usize)?;
        let entries = take_part(&mut left, entries as usize)?;
        let questions = take_part(&mut left, SINGLE_WIDTH * questions as usize)?;
        let besides = take_part(&mut left, besides as usize)?;
        let words = take_part(&mut left, words as usize)?;
        if !left.is_empty() {
            return Err(BrokenOff);
        }
        Ok(Vector {
            record,
            nations,
            entries,
            questions: questions.as_chunks().0,
            asked: Asked::new(kind, besides)?,
            room: room as usize,
            number,
            words,
            is_falsified: falsified != 0,
        })
    }
}
