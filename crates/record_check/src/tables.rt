//! Tables of the tag bytes and of the days of a year, made once where many fields are to be tested: to look a number up is quicker than to test it.
ghost use Rattle.std.specs.Prelude.{◌≡◌, ◌+◌, ◌*◌, ◌≤◌};
ghost use Rattle.format.specs.Dates.{good_date};
ghost use Rattle.format.specs.Tags.{is_tag, tag_byte};
ghost use Rattle.record_check.specs.Tables.{TagTable, DaysTo, DayTable};

use format::{CountryTag, Eu4Date};

// Of each byte whether it is a tag's, and of each number month*100 + day whether it is a day. The two stand where the rows are tested, and are lent:
// handed on by value, they cost a thread 24 KiB of stack more.
#[derive(Drop)]
pub(crate) struct Tables<'a> {
    pub(crate) tag_bytes: &'a [bool; 256],
    pub(crate) days: &'a [bool; 10000],
    ghost tag_rule: { TagTable tag_bytes.now },
    ghost day_rule: { DayTable days.now },
}

impl Tables<'_> {
    // Whether a tag's three bytes are tag bytes. By division, and not by `to_be_bytes`: a word of more than three bytes is no tag, and of a word that
    // was just read the compiler takes the bytes themselves.
    #[tactic(auto, unfolding(format::specs::Tags::is_tag))]
    pub(crate) fn good_tag(&self, tag: CountryTag) -> bool
        ensures { result ≡ is_tag tag }
    {
        let word = u32::from(tag);
        self.tag_byte(word / 65536) & self.tag_byte(word / 256 % 256) & self.tag_byte(word % 256)
    }

    // Whether it is a tag's byte; a number that is no byte is none.
    fn tag_byte(&self, b: u32) -> bool
        ensures { result ≡ tag_byte b }
    {
        let tag_bytes = self.tag_bytes;
        tag_bytes.get(b as usize).copied().unwrap_or(false)
    }

    // Whether the number is a date.
    pub(crate) fn good_date(&self, date: Eu4Date) -> bool
        ensures { result ≡ good_date date }
    {
        date.in_years() & self.days[date.month_day() as usize]
    }
}

// The test of every byte.
pub(crate) fn fill_tag_bytes(table: &mut [bool; 256])
    ensures { TagTable table.new }
{
    for (b, cell) in table.iter_mut().enumerate() {
        *cell = format::tag_byte(b as u32);
    }
}

// Marks the days of a month; the months before it are marked.
fn mark_days(table: &mut [bool; 10000], month: usize)
    requires { (1 ≤ month) × (month ≤ 12) × (DaysTo table.old (100 * month)) }
    ensures { DaysTo table.new (100 * month + 100) }
{
    let first = 100 * month + 1;
    let days = format::month_days(month as u32) as usize;
    table[first..first + days].fill(true);
}

// Which numbers month*100 + day are days, in a table without marks.
pub(crate) fn fill_days(table: &mut [bool; 10000])
    requires { DaysTo table.old (100 * 1) }
    ensures { DayTable table.new }
{
    for month in 1..13 {
        mark_days(table, month);
    }
}
