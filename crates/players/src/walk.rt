//! A walk over the players of a campaign: the pairs that name somebody and a tag.
ghost use Rattle.std.specs.Prelude.{◌≡◌};
ghost use Rattle.std.specs.Iterator.{YieldsFirst, item_count};
ghost use Rattle.lists.specs.Lists.{same_numbers, join_of};
ghost use Rattle.lists.specs.Text.{ascii};
ghost use Rattle.record.specs.Cursors.{strings_left};
ghost use Rattle.rules.specs.Players.{pairs_from, player_of};
ghost use Rattle.players.specs.PairSteps.{pair_of};
ghost use Rattle.players.specs.PlayerSteps.{players_made, players_left};

use crate::pairs::{Pair, Pairs};
use format::{CountryTag, Player};
use record::Strings;

// An iterator over players, in string order.
#[derive(Clone, Copy)]
pub(crate) struct PlayersOf<'a> {
    pairs: Pairs<'a>,
    multiplayer: bool,
}

// Whether a name is `Player`, which the game gives to somebody without one.
#[tactic(auto, using(crate::proofs::PairLaws::same_bytes))]
fn is_nameless(name: &[u8]) -> bool
    ensures { result ≡ same_numbers name.now (ascii "Player") }
{
    name == b"Player".as_slice()
}

// The player of a pair. In a campaign of one player nobody in particular is called `Player`.
#[tactic(auto, unfolding(rules::specs::Players::player_of))]
fn player_of(pair: Pair, multiplayer: bool) -> Option<Player>
    ensures { players_made result ≡ player_of multiplayer (pair_of pair.entry) }
{
    if is_nameless(pair.name) & !multiplayer {
        return None;
    }
    let tag = CountryTag::create(pair.text).ok()?;
    Some(Player {
        name: pair.number,
        tag,
    })
}

impl<'a> PlayersOf<'a> {
    /// The players that these strings tell.
    pub fn new(strings: Strings<'a>, multiplayer: bool) -> Self
        ensures { players_left result ≡ join_of (player_of multiplayer) (pairs_from 0 (strings_left strings.entry)) }
    {
        PlayersOf {
            pairs: Pairs::new(strings),
            multiplayer,
        }
    }
}

impl Iterator for PlayersOf<'_> {
    type Item = Player;

    ghost next_gives = { YieldsFirst players_left };

    ghost remaining = { item_count players_left };

    fn next(&mut self) -> Option<Player> {
        let multiplayer = self.multiplayer;
        self.pairs.find_map(|pair| player_of(pair, multiplayer))
    }
}
