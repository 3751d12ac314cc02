//! An iterator over the strings, which vary in width.
ghost use Rattle.std.specs.Prelude.{◌≤◌};

/// So many strings, and the bytes that they stand in. The number stands beside the bytes, and no fact ties the two: `next` ends where either does. That the
/// strings can be numbered in a word (players) follows from the number alone.
#[derive(Clone, Copy)]
pub struct Strings<'a> {
    pub(crate) bytes: &'a [u8],
    pub(crate) left: u32,
    ghost few: { left ≤ 4294967295 },
}

#[tactic(auto, using(crate::proofs::TextLaws::texts))]
impl<'a> Iterator for Strings<'a> {
    ghost use Rattle.std.specs.Iterator.{YieldsFirstRef, item_count};
    ghost use Rattle.record.specs.Cursors.{strings_left};

    type Item = &'a [u8];

    ghost next_gives = { YieldsFirstRef strings_left };

    ghost remaining = { item_count strings_left };

    fn next(&mut self) -> Option<&'a [u8]> {
        if self.left == 0 {
            return None;
        }
        let (len, behind) = self.bytes.split_first()?;
        let (text, rest) = behind.split_at_checked(usize::from(*len))?;
        self.left -= 1;
        self.bytes = rest;
        Some(text)
    }
}
