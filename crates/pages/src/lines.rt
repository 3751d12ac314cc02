//! The lines of the page, each as its bytes. A tag of a lent row may be any three bytes, which may be no text: so a line is bytes. Not by `write!`:
//! into an ArrayVec, which is an `io::Write`, it promises the bytes where it is Ok, and nowhere that it is; `try_extend_from_slice` says when.
ghost use Rattle.std.specs.Prelude.{◌≡◌, ◌++◌, ◌+◌, ◌≤◌, ◌^◌, ◌<◌, length};
ghost use Rattle.arrayvec.specs.ArrayVec.{array_vec_len};
ghost use Rattle.rules.specs.Page.{decimal};
ghost use Rattle.rules.specs.PageOutcomes.{refused_line};
ghost use Rattle.pages.specs.Lines.{tag_field, status_field, row_line, absent_line, counted_line, heading};

use arrayvec::ArrayVec;
use format::{CountryTag, NationRow};
use itoa::Buffer;

/// No line has more bytes than a nation's: three tags with a space behind each, a count of ten digits, and its status.
pub const LONGEST_LINE: usize = 31;

// The count of fewer entries has at most four digits.
pub(crate) const FEW_ENTRIES: u32 = 10_000;

// Of a nation with so few entries no line has more bytes.
pub(crate) const SHORT_LINE: usize = 25;

// The bytes of a line, in an array of their own.
pub(crate) type Line = ArrayVec<u8, LONGEST_LINE>;

// Puts bytes behind a line that has room for them.
fn put(line: &mut Line, bytes: &[u8])
    requires { array_vec_len line.old + length bytes.now ≤ LONGEST_LINE }
    ensures { line.new.items ≡ line.old.items ++ bytes.now }
{
    line.try_extend_from_slice(bytes).unwrap();
}

// Puts a tag's three bytes, and a space.
fn put_tag(line: &mut Line, tag: CountryTag)
    requires { array_vec_len line.old + 4 ≤ LONGEST_LINE }
    ensures { line.new.items ≡ line.old.items ++ tag_field tag }
{
    let [_, a, b, c] = u32::from(tag).to_be_bytes();
    put(line, &[a, b, c, b' ']);
}

// A status between a space and a line feed.
fn status(living: bool) -> &'static [u8]
    ensures { result.now ≡ status_field living }
{
    if living { b" living\n" } else { b" annexed\n" }
}

// A line of a word and a number.
#[tactic(auto, using(crate::proofs::DecimalLaws::decimal_same, std::proofs::Common::append_assoc))]
fn counted_line(word: &[u8], number: u64) -> Line
    requires { length word.now ≤ 10 }
    ensures { result.items ≡ counted_line word.now number }
{
    let mut line = Line::new();
    put(&mut line, word);
    put(&mut line, Buffer::new().format(number).as_bytes());
    put(&mut line, b"\n");
    line
}

// The first line of the page: how many tags were selected.
pub(crate) fn heading(count: usize) -> Line
    ensures { result.items ≡ heading count }
{
    counted_line(b"selected ", count as u64)
}

// The line of a nation: its tags, its entries counted, and whether it lives.
#[tactic(auto, using(crate::proofs::DecimalLaws::decimal_same))]
pub(crate) fn row_line(row: NationRow, living: bool) -> Line
    ensures { result.items ≡ row_line row living }
{
    let mut line = Line::new();
    put_tag(&mut line, row.stored);
    put_tag(&mut line, row.initial);
    put_tag(&mut line, row.latest);
    put(&mut line, Buffer::new().format(row.count).as_bytes());
    put(&mut line, status(living));
    line
}

// The line of a tag that no nation is stored under.
pub(crate) fn absent_line(tag: CountryTag) -> Line
    ensures { result.items ≡ absent_line tag }
{
    let mut line = Line::new();
    put_tag(&mut line, tag);
    put(&mut line, b"absent\n");
    line
}

// The line of a refusal, by its number.
#[tactic(auto, unfolding(rules::specs::Page::line))]
pub(crate) fn refused_line(number: u32) -> Line
    ensures { result.items ≡ refused_line number }
{
    counted_line(b"refused ", u64::from(number))
}
