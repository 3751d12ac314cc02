//! Tables by which a country finds its nation and its players: keys of country tags, and sorted keys of players.
ghost use Rattle.std.specs.Prelude.{◌≡◌, map, ◌≤◌, leb, length};
ghost use Rattle.sorting.specs.Sort.{sort_by};
ghost use Rattle.rules.specs.Lent.{written};
ghost use Rattle.search.specs.Places.{keys_per_tag, tag_keys_from};
ghost use Rattle.players.specs.PlayerSteps.{players_left};
ghost use Rattle.players.specs.TagTables.{country_tags_left, player_key};

use crate::walk::PlayersOf;
use format::MOST_STRINGS;
use record::Countries;
use search::{SortedKeys, tag_key};
use sorting::sort_keys;

// Writes the key of each country's tag in row order.
#[tactic(auto, unfolding(search::specs::Places::tag_keys_from))]
pub(crate) fn fill_countries(countries: Countries<'_>, keys: &mut [u64])
    requires { (length (country_tags_left countries) ≤ length keys.old) × (length keys.old ≤ keys_per_tag) }
    ensures { keys.new ≡ written (tag_keys_from 0 (country_tags_left countries.entry)) keys.old }
{
    for (n, row) in countries.enumerate() {
        keys[n] = tag_key(row.tag, n);
    }
}

// Writes the key of each player, tag and name, in string order; returns how many.
fn fill_players(players: PlayersOf<'_>, keys: &mut [u64]) -> usize
    requires { length (players_left players) ≤ length keys.old }
    ensures { (result ≡ length (players_left players.entry))
        × (keys.new ≡ written (map player_key (players_left players.entry)) keys.old) }
{
    let mut n = 0;
    for player in players {
        keys[n] = tag_key(player.tag, player.name as usize);
        n += 1;
    }
    n
}

// The same in order of the keys, so that the players of a tag stand together, by rising name. No record has more players than strings.
pub(crate) fn sort_players<'a>(
    players: PlayersOf<'_>,
    keys: &'a mut [u64; MOST_STRINGS],
) -> SortedKeys<'a>
    requires { length (players_left players) ≤ 1000 }
    ensures { result.keys.now ≡ sort_by leb (map player_key (players_left players.entry)) }
{
    // Made before the keys are written: made behind that loop it would be cleared twice.
    let mut scratch = [0u64; MOST_STRINGS];
    let n = fill_players(players, keys);
    sort_keys(&mut keys[..n], &mut scratch);
    SortedKeys { keys: &keys[..n] }
}
