//! Why a record, or a call that is given one, is refused.
ghost use Rattle.std.specs.Prelude.{◌≡◌, Some};
ghost use Rattle.format.specs.RefusalNumber.{refusal_number, refused_text};

use std::fmt;

/// Each has a number, from 1 on in this order. The first nine are of records, the others of calls.
#[derive(Clone, Copy, Debug, PartialEq, Eq)]
pub enum Refusal {
    NotARecord = 1,
    UnknownVersion = 2,
    SizesDisagree = 3,
    BadTag = 4,
    BadDate = 5,
    UndefinedFlag = 6,
    Repeated = 7,
    DatesReversed = 8,
    LedgerYear = 9,
    NoRoom = 10,
    NotWellShaped = 11,
    BadQuestion = 12,
    NoSuchNation = 13,
}

impl Refusal {
    /// The number that the host, and the program's output, know it by.
    pub fn number(self) -> u32
        ensures { result ≡ refusal_number self }
    {
        self as u32
    }
}

// How a program prints it. The page's line of it (pages, `refused_line`) is put together anew: `write!` into its ArrayVec promises the bytes where it
// is Ok, and nowhere that it is.
impl fmt::Display for Refusal {
    ghost output = { λ refusal. Some (refused_text refusal) };

    fn fmt<W: fmt::Write>(&self, f: &mut fmt::Formatter<W>) -> fmt::Result {
        let number = self.number();
        write!(f, "refused {number}")
    }
}
