//! `players`: the players of a campaign, counted first, then written.
ghost use Rattle.std.specs.Prelude.{◌≡◌, ◌*◌, ◌≤◌, length};
ghost use Rattle.rules.specs.Lent.{written, outcome_of};
ghost use Rattle.rules.specs.Players.{player_width, player_rows};
ghost use Rattle.rules.specs.PlayerOutcomes.{call_players};
ghost use Rattle.players.specs.PlayerSteps.{players_left};

use crate::walk::PlayersOf;
use format::Refusal;
use record::Record;
use rows::{PLAYER_WIDTH, ToRow, put};

// Writes the rows of all players. By places: a proof knows no cell that is written through `as_chunks_mut`.
fn write_players(players: PlayersOf, out: &mut [u32])
    requires { player_width * length (players_left players) ≤ length out.old }
    ensures { out.new ≡ written (player_rows (players_left players.entry)) out.old }
{
    for (i, player) in players.enumerate() {
        put(player.to_row(), &mut out[PLAYER_WIDTH * i..]);
    }
}

/// All players of an opened record in string order, a row of two words for each: the string number of the name, from 0, and the tag; returns how many.
/// Refused by `NoRoom` is a slice that is too short.
pub fn players_of(opened: Record<'_>, out: &mut [u32]) -> Result<usize, Refusal>
    ensures { outcome_of (λ n. n) result out.new ≡ call_players opened.entry.bytes.now out.old }
{
    let players = PlayersOf::new(opened.strings, opened.multiplayer);
    let n = players.count();
    if out.len() < PLAYER_WIDTH * n {
        return Err(Refusal::NoRoom);
    }
    write_players(players, out);
    Ok(n)
}

/// All players in string order, a row of two words for each: the string number of the name, from 0, and the tag; returns how many. A bad record is
/// refused by its own refusal, a slice that is too short by `NoRoom`.
///
/// # Source
/// `players` of query.rs.
pub fn players(s: &[u8], out: &mut [u32]) -> Result<usize, Refusal>
    ensures { outcome_of (λ n. n) result out.new ≡ call_players s.now out.old }
{
    let opened = Record::open(s)?;
    players_of(opened, out)
}
