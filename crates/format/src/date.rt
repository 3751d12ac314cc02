ghost use Rattle.std.specs.Prelude.{◌≡◌};
ghost use Rattle.lists.specs.Options.{ok_of};
ghost use Rattle.format.specs.Dates.{month_days, good_date, date_of_word};
ghost use Rattle.format.specs.Bytes.{date_at};
ghost use Rattle.format.specs.Dates.{year as yearOf};
ghost use Rattle.format.specs.Days.{month_day, is_day, in_years};

/// A date as year*10000 + month*100 + day: number order is date order.
#[derive(Clone, Copy, Debug, PartialEq, Eq, PartialOrd, Ord)]
pub struct Eu4Date(pub(crate) u32);

/// A word that is no date's.
#[derive(Clone, Copy, Debug, PartialEq, Eq)]
pub struct NotADate;

// Two bits for each month, the lowest for month 0: how many days it has more than 28.
const OVER_28: u32 = 62648012;

/// How many days a month has, without leap days; 0 for a number that is no month's.
pub fn month_days(m: u32) -> u32
    ensures { result ≡ month_days m }
{
    if m < 1 {
        return 0;
    }
    if 12 < m {
        return 0;
    }
    28 + (OVER_28 >> (2 * m)) % 4
}

// Whether month*100 + day is a day of a month.
fn is_day(month_day: u32) -> bool
    ensures { result ≡ is_day month_day }
{
    let day = month_day % 100;
    (1 <= day) & (day <= month_days(month_day / 100))
}

impl Eu4Date {
    /// Before every date, and no date itself.
    pub const BEFORE_ALL: Eu4Date = Eu4Date(0);

    /// Whether the year is 1 to 9999: the number's size tells, so that nothing is divided.
    pub fn in_years(self) -> bool
        ensures { result ≡ in_years self }
    {
        (10000 <= self.0) & (self.0 <= 99999999)
    }

    /// month*100 + day, both by one remainder.
    pub fn month_day(self) -> u32
        ensures { result ≡ month_day self }
    {
        self.0 % 10000
    }

    /// Whether the number is a date.
    pub fn is_valid(self) -> bool
        ensures { result ≡ good_date self }
    {
        self.in_years() & is_day(self.month_day())
    }

    /// The date of a word as it stands. Nothing is tested: sort keys and cells hold what was put there, and words of lent rows or from C are tested by
    /// `good` where they are used, each in its turn. No `From<u32>`, which cannot stand beside `try_from`.
    pub fn from_word_unchecked(word: u32) -> Eu4Date
        ensures { result.0 ≡ word }
    {
        Eu4Date(word)
    }

    /// The date of four bytes as they stand, the low one first. Nothing is tested. No `From<[u8; 4]>`: bytes do not tell their order, which is why
    /// `u32::from_le_bytes` has a name too.
    #[tactic(auto, unfolding(crate::specs::Bytes::date_at, crate::specs::Bytes::le32))]
    pub fn from_bytes_unchecked(bytes: [u8; 4]) -> Eu4Date
        ensures { result ≡ date_at bytes 0 }
    {
        Eu4Date(u32::from_le_bytes(bytes))
    }

    /// The year.
    pub fn year(self) -> u32
        ensures { result ≡ yearOf self }
    {
        self.0 / 10000
    }
}

// The date that a row's word holds; a word that is no date's is refused.
impl TryFrom<u32> for Eu4Date {
    type Error = NotADate;

    ghost try_from_gives = { λ word r. ok_of r ≡ date_of_word word };

    fn try_from(word: u32) -> Result<Eu4Date, NotADate> {
        let date = Eu4Date(word);
        if date.is_valid() {
            Ok(date)
        } else {
            Err(NotADate)
        }
    }
}

// The word that a row holds for a date.
impl From<Eu4Date> for u32 {
    ghost from_gives = { λ date word. word ≡ date.0 };

    fn from(date: Eu4Date) -> u32 {
        date.0
    }
}
