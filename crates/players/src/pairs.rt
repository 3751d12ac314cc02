//! Strings in pairs: the name of a player, and behind it a text that may be a tag.
ghost use Rattle.std.specs.Prelude.{◌+◌, ◌≤◌, length};
ghost use Rattle.record.specs.Cursors.{strings_left};

use record::Strings;

// How many strings a pair takes.
const PAIR_WIDTH: u32 = 2;

// A name and a text, and the string number of the name.
#[derive(Clone, Copy)]
pub(crate) struct Pair<'a> {
    pub(crate) number: u32,
    pub(crate) name: &'a [u8],
    pub(crate) text: &'a [u8],
}

// An iterator over pairs: the strings left, and the number of the first of them.
#[derive(Clone, Copy)]
pub(crate) struct Pairs<'a> {
    number: u32,
    strings: Strings<'a>,
    ghost numbered: { number + length (strings_left strings) ≤ 4294967295 },
}

#[tactic(auto, using(record::proofs::TextLaws::strings_few))]
impl<'a> Pairs<'a> {
    ghost use Rattle.std.specs.Prelude.{◌≡◌};
    ghost use Rattle.rules.specs.Players.{pairs_from};
    ghost use Rattle.players.specs.PairSteps.{pairs_left};

    // The pairs of all these strings.
    pub(crate) fn new(strings: Strings<'a>) -> Self
        ensures { pairs_left result ≡ pairs_from 0 (strings_left strings.entry) }
    {
        Pairs { number: 0, strings }
    }
}

#[tactic(auto, using(crate::proofs::PairLaws::pairs))]
impl<'a> Iterator for Pairs<'a> {
    ghost use Rattle.std.specs.Iterator.{YieldsFirstBy, item_count};
    ghost use Rattle.players.specs.PairSteps.{pair_of, pairs_left};

    type Item = Pair<'a>;

    ghost next_gives = { YieldsFirstBy pair_of pairs_left };

    ghost remaining = { item_count pairs_left };

    // A last name with nothing behind it is left out.
    fn next(&mut self) -> Option<Pair<'a>> {
        let name = self.strings.next()?;
        let text = self.strings.next()?;
        let number = self.number;
        self.number = number + PAIR_WIDTH;
        Some(Pair { number, name, text })
    }
}
