//! What C calls of players, of their histories, and of the country that they started as.
ghost use Rattle.rules.specs.PlayerOutcomes.{call_players};
ghost use Rattle.players.specs.LentSlices.{history_cells};
ghost use Rattle.page.specs.Host.{Returns};
ghost use Rattle.page.specs.Playing.{call_player_histories_given, call_starting_country_cells};

use crate::found::put_starting;
use crate::numbers::returned;

/// Writes the players, two words each: the string number of the name, and the tag. Gives their number, or minus the refusal number.
pub fn players(s: &[u8], out: &mut [u32]) -> i64
    ensures { Returns (call_players s.now out.old) result out.new }
{
    returned(chronicle::players(s, out))
}

/// Writes the histories, seven words each, and the names that they point into, a word each. Gives the number of histories, or minus the
/// refusal number. There are as many names as the last row's first and count make together; without a row there are none.
pub fn player_histories(
    s: &[u8],
    nations: &[u32],
    entries: &[u32],
    histories: &mut [u32],
    names: &mut [u32],
) -> i64
    ensures { Returns (call_player_histories_given s.now nations.now entries.now (history_cells histories.old names.old)) result (history_cells histories.new names.new) }
{
    let answer = chronicle::player_histories(s, nations, entries, histories, names);
    returned(answer.map(|counts| counts.histories))
}

/// Writes the tag of the starting country, by lent history words, nation words and entry words, and gives 1; for none 0. Else minus the
/// refusal number: 10 only where there is a tag and no room for it.
#[tactic(auto, unfolding(crate::specs::Playing::call_starting_country_cells))]
pub fn starting_country(histories: &[u32], nations: &[u32], entries: &[u32], out: &mut [u32]) -> i64
    ensures { Returns (call_starting_country_cells histories.now nations.now entries.now out.old) result out.new }
{
    put_starting(
        chronicle::starting_country(histories, nations, entries),
        out,
    )
}
