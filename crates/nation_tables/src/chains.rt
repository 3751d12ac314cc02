//! Chains of changes: for each country row the changes at which it loses a slot, and those at which it gains one, in rising order.
//! A chain is a first change and at each change a link to the next; NO_CHANGE ends it.
ghost use Rattle.std.specs.Prelude.{◌≤◌, length};
ghost use Rattle.nation_tables.specs.Layout.{no_change};
ghost use Rattle.nation_tables.specs.Turning.{losses, gains, Fresh, TurnsLinked, LossPushed, GainPushed};

use crate::layout::{LossGain, NO_CHANGE};
use std::mem;

// Puts change k before the losses of a row, and returns the one that was first there; NO_CHANGE where there is no row, for the answer is written into a
// link. By index, here and below: no cell is known behind `get_mut`.
fn push_loss(firsts: &mut [LossGain], row: u16, k: u16) -> u16
    ensures { LossPushed firsts.old row k result firsts.new }
{
    let row = usize::from(row);
    if firsts.len() <= row {
        return NO_CHANGE;
    }
    mem::replace(&mut firsts[row].loss, k)
}

// Puts change k before the gains of a row, and returns the one that was first there.
fn push_gain(firsts: &mut [LossGain], row: u16, k: u16) -> u16
    ensures { GainPushed firsts.old row k result firsts.new }
{
    let row = usize::from(row);
    if firsts.len() <= row {
        return NO_CHANGE;
    }
    mem::replace(&mut firsts[row].gain, k)
}

// Turns the old and the new row of each change into the links to their next changes, and leaves each row's first ones in `firsts`. A
// number that is no row's begins no chain. From the last change to the first: so each cell is read as rows before it holds links.
pub(crate) fn link(turns: &mut [LossGain], firsts: &mut [LossGain])
    requires turns_len_bound { length turns.old ≤ no_change }
    requires fresh { Fresh (losses firsts.old) × Fresh (gains firsts.old) }
    ensures { TurnsLinked turns.old turns.new firsts.new }
{
    for k in (0..turns.len()).rev() {
        let turn = turns[k];
        turns[k] = LossGain {
            loss: push_loss(firsts, turn.loss, k as u16),
            gain: push_gain(firsts, turn.gain, k as u16),
        };
    }
}
