//! The selection: tags, each with a line feed behind it.
ghost use Rattle.std.specs.Prelude.{◌≡◌, length, map, All, MatchOption};
ghost use Rattle.std.specs.List.{list_all};
ghost use Rattle.std.specs.Iterator.{YieldsFirst, item_count};
ghost use Rattle.format.specs.Bytes.{tag_at};
ghost use Rattle.pages.specs.Selecting.{is_line, tags_left, IsTags};

use format::CountryTag;

// How many bytes a tag takes with its line feed.
pub(crate) const TAG_LINE: usize = 4;

// The tags of a selection, one by one, each on a line of its own. `as_chunks` with `map` is no plainer: the type of the closure has no name, so each
// function that is passed the tags would be generic. `record::Rows` goes over rows of bytes too, but is not below this crate.
#[derive(Clone, Copy)]
pub(crate) struct SelectedTags<'a> {
    lines: &'a [[u8; TAG_LINE]],
}

// Whether a line is a tag with a line feed behind it.
#[tactic(auto, unfolding(crate::specs::Selecting::is_line))]
fn is_tag_line(line: &[u8; TAG_LINE]) -> bool
    ensures { result ≡ is_line line.now }
{
    (line[3] == b'\n') & line_tag(line).is_valid()
}

// The three bytes of a line, as a tag. Not by `Packed`, which reads a row of three: a line has a fourth.
#[tactic(auto, unfolding(format::specs::Bytes::tag_at))]
fn line_tag(line: &[u8; TAG_LINE]) -> CountryTag
    ensures { result ≡ tag_at line.now 0 }
{
    CountryTag::from_bytes_unchecked(line[0], line[1], line[2])
}

// Whether each of them is.
fn are_tag_lines(lines: &[[u8; TAG_LINE]]) -> bool
    ensures { result ≡ list_all is_line lines.now }
{
    lines.iter().all(is_tag_line)
}

// The tags of the bytes, if these are tags, each with a line feed behind it.
pub(crate) fn read_selection(selection: &[u8]) -> Option<SelectedTags<'_>>
    ensures { IsTags selection.now result }
{
    let (lines, rest) = selection.as_chunks();
    (rest.is_empty() & are_tag_lines(lines)).then_some(SelectedTags { lines })
}

impl SelectedTags<'_> {
    /// How many tags are left.
    pub fn len(&self) -> usize
        ensures { result ≡ length (tags_left self.now) }
    {
        self.lines.len()
    }
}

impl Iterator for SelectedTags<'_> {
    type Item = CountryTag;

    ghost next_gives = { YieldsFirst tags_left };

    ghost remaining = { item_count tags_left };

    fn next(&mut self) -> Option<CountryTag> {
        let (line, rest) = self.lines.split_first()?;
        self.lines = rest;
        Some(line_tag(line))
    }
}
