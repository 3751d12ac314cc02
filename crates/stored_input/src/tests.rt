//! `replay_list`, `replay_file` and elements of a caller's own, which no program here uses.
ghost use Rattle.std.specs.Prelude.{List, ℕ, ⊤};

use crate::{
    BrokenOff, Counts, Replay, ReplayNext, Stop, Stored, next_number, read_numbers, read_part,
    replay_file, replay_list, tally_list,
};
use std::fs::File;
use std::io::{Read, Write};
use std::test::Fail;
use std::{fs, io};

// Cases of a number and its double.
#[derive(Drop)]
struct Doubles;

impl Doubles {
    fn counted(first: u32, double: u32) -> Counts {
        Counts {
            questions: 1,
            wrong: usize::from(first.checked_mul(2) != Some(double)),
            ..Counts::default()
        }
    }
}

impl Replay for Doubles {
    ghost comes_to = { λ _ _ _. ⊤ };

    fn replay<R: Read>(&mut self, first: u32, list: &mut R) -> Result<Counts, BrokenOff> {
        let [double]: [u32; 1] = read_numbers(list)?;
        Ok(Doubles::counted(first, double))
    }
}

impl ReplayNext for Doubles {
    ghost comes_to = { λ _ _. ⊤ };

    ghost leaves = { λ _. ⊤ };

    fn replay_next<R: Read>(&mut self, list: &mut R) -> Result<Option<Counts>, Stop> {
        let Some(first) = next_number(list)? else {
            return Ok(None);
        };
        let [double]: [u32; 1] = read_numbers(list)?;
        Ok(Some(Doubles::counted(first, double)))
    }
}

// Bytes behind which every read fails.
#[derive(Drop)]
struct Failing<'a> {
    bytes: &'a [u8],
}

impl Read for Failing<'_> {
    fn read(&mut self, buf: &mut [u8]) -> io::Result<usize> {
        if self.bytes.is_empty() {
            return Err(io::Error::from(io::ErrorKind::Other));
        }
        self.bytes.read(buf)
    }
}

// A right case, a wrong one, a right one.
const LIST: [u8; 24] = [
    1, 0, 0, 0, 2, 0, 0, 0, 3, 0, 0, 0, 7, 0, 0, 0, 0, 1, 0, 0, 0, 2, 0, 0,
];

#[test]
fn numbered_cases_are_counted_to_where_the_list_breaks_off(rt: HostRuntime) {
    // How many bytes the list has; where it ends behind them, the cases and the wrong answers; where every read behind them fails, the wrong answers
    // and whether it is unread.
    for (n, cases, wrong, wrong_tallied, is_unread) in [
        (0, 0, 0, 0, true),
        (8, 1, 0, 0, true),
        (11, 1, 1, 1, false),
        (14, 1, 1, 1, false),
        (16, 2, 1, 1, true),
        (24, 3, 1, 1, true),
    ] {
        let bytes = &LIST[..n];
        let mut list = bytes;
        let all = replay_list(&mut list, &mut Doubles);
        assert_eq!(rt;
            (all.cases, all.counts.wrong, all.is_unread),
            (cases, wrong, false),
            "{n} bytes"
        );
        let mut list = Failing { bytes };
        let all = tally_list(&mut list, &mut Doubles);
        assert_eq!(rt;
            (all.cases, all.counts.wrong, all.is_unread),
            (cases, wrong_tallied, is_unread),
            "{n} bytes, tallied"
        );
        let mut list = Failing { bytes };
        let all = replay_list(&mut list, &mut Doubles);
        let broken = wrong_tallied + usize::from(is_unread);
        assert_eq!(rt;
            (all.cases, all.counts.wrong, all.is_unread),
            (cases, broken, false),
            "{n} bytes, then no read"
        );
    }
}

#[test]
fn numbered_cases_of_a_file_are_counted(rt: HostRuntime) -> Result<(), Fail> {
    let mut file = File::create(&rt, "numbered.bin")?;
    file.write_all(&LIST)?;
    let all = replay_file(&rt, "numbered.bin", &mut Doubles).unwrap_or_default();
    fs::remove_file(&rt, "numbered.bin")?;
    assert_eq!(rt;
        (all.cases, all.counts.questions, all.counts.wrong),
        (3, 3, 1)
    );
    assert!(rt; replay_file(&rt, "numbered.bin", &mut Doubles).is_none());
    Ok(())
}

// Two bytes, of which the list has the second one first. They are read one pair at a time.
#[derive(Clone, Copy, Debug, PartialEq, Eq)]
struct Pair {
    first: u8,
    second: u8,
}

impl Stored for Pair {
    ghost use Rattle.std.specs.Prelude.{◌∷◌, [], List, ℕ, flat_map};
    ghost use Rattle.stored_input.specs.declared.tests.Pair.{Pair};

    ghost bytes_of = { λ pairs. flat_map (λ (p : Pair). p.second ∷ p.first ∷ []) pairs };

    fn fill<R: Read>(list: &mut R, buf: &mut [Pair]) -> Result<(), BrokenOff> {
        if buf.len() != 1 {
            return Err(BrokenOff);
        }
        let mut bytes = [0u8; 2];
        u8::fill(list, &mut bytes)?;
        let [second, first] = bytes;
        buf[0] = Pair { first, second };
        Ok(())
    }
}

#[test]
fn elements_that_a_caller_defines_are_read(rt: HostRuntime) {
    let mut pairs = [Pair {
        first: 0,
        second: 0,
    }; 2];
    let mut list: &[u8] = &LIST[3..6];
    let read = read_part(&mut list, 1, &mut pairs).map(|pairs| pairs.first().copied());
    let pair = Pair {
        first: 2,
        second: 0,
    };
    assert_eq!(rt; read, Ok(Some(pair)));
    assert_eq!(rt; read_part(&mut list, 1, &mut pairs), Err(BrokenOff));
}
