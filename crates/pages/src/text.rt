//! The text of the page: held against the room first, then written.
ghost use Rattle.std.specs.Prelude.{◌≡◌, ◌++◌, ◌+◌, ◌≤◌, leb, length, take, drop};
ghost use Rattle.rules.specs.Lent.{written};
ghost use Rattle.rules.specs.NationRows.{nation_rows_in};
ghost use Rattle.pages.specs.Selecting.{tags_left};
ghost use Rattle.pages.specs.Stored.{lines_of};
ghost use Rattle.pages.specs.Texts.{lines_outcome, call_lines, lines_text};

use crate::lines::{SHORT_LINE, heading};
use crate::selection::SelectedTags;
use crate::stored::{StoredNations, are_short, sort_stored};
use format::MOST_COUNTRIES;

// Whether the lines of all tags have room. Where the longest of short lines would have it for each tag, none is made to know its length: the text of
// 16,384 tags takes 1.1 ms so, and 1.9 where each line is made for its length too.
fn lines_fit(stored: StoredNations, tags: SelectedTags, room: usize) -> bool
    ensures { result ≡ leb (length (lines_of stored.entry.nations.now stored.entry.living.now (tags_left tags.entry))) room }
{
    if (tags.len() <= room / SHORT_LINE) & are_short(stored.nations) {
        return true;
    }
    let mut left = room;
    for tag in tags {
        let need = stored.line(tag).len();
        if left < need {
            return false;
        }
        left -= need;
    }
    true
}

// Writes a text at a place that has room for it.
fn put_at(out: &mut [u8], k: usize, text: &[u8])
    requires { k + length text.now ≤ length out.old }
    ensures { out.new ≡ take k out.old ++ (text.now ++ drop (k + length text.now) out.old) }
{
    let end = k + text.len();
    out[k..end].copy_from_slice(text);
}

// Writes the lines of all tags, which have room, and gives how many bytes they have. The offset is kept beside the walk: lines differ in length.
fn put_lines(stored: StoredNations, tags: SelectedTags, out: &mut [u8]) -> usize
    requires { length (lines_of stored.nations.now stored.living.now (tags_left tags)) ≤ length out.old }
    ensures count { result ≡ length (lines_of stored.entry.nations.now stored.entry.living.now (tags_left tags.entry)) }
    ensures text { out.new ≡ written (lines_of stored.entry.nations.now stored.entry.living.now (tags_left tags.entry)) out.old }
{
    let mut k = 0;
    for tag in tags {
        let line = stored.line(tag);
        put_at(out, k, line.as_slice());
        k += line.len();
    }
    k
}

// The page of stored nations for tags, with a first line that counts them: how many bytes it has, or nothing where it has no room.
fn write_lines(stored: StoredNations, tags: SelectedTags, out: &mut [u8]) -> Option<usize>
    ensures { lines_outcome result out.new ≡ call_lines (lines_text stored.entry.nations.now stored.entry.living.now (tags_left tags.entry)) out.old }
{
    let heading = heading(tags.len());
    let first = heading.len();
    if out.len() < first {
        return None;
    }
    if !lines_fit(stored, tags, out.len() - first) {
        return None;
    }
    out[..first].copy_from_slice(heading.as_slice());
    let rest = put_lines(stored, tags, &mut out[first..]);
    Some(first + rest)
}

// The page of nation rows, with a status cell for each, for the tags of a selection: its first line, then a line for each tag; held against the room before
// anything is written. Gives how many bytes it has, or nothing where it has no room.
pub(crate) fn write_text(
    nations: &[u32],
    living: &[bool],
    tags: SelectedTags,
    out: &mut [u8],
) -> Option<usize>
    requires few { length (nation_rows_in nations.now) ≤ 2000 }
    requires long { length (nation_rows_in nations.now) ≤ length living.now }
    ensures { lines_outcome result out.new ≡ call_lines (lines_text nations.now living.now (tags_left tags.entry)) out.old }
{
    // No heap: an array for the most nations, of which the front is used.
    let mut keys = [0u64; MOST_COUNTRIES];
    let keys = sort_stored(nations, &mut keys);
    let stored = StoredNations {
        nations,
        living,
        keys,
    };
    write_lines(stored, tags, out)
}
