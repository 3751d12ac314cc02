//! Passes over the rows of the answer, each beside the joinings.
ghost use Rattle.std.specs.Prelude.{◌≡◌, take, length};
ghost use Rattle.rules.specs.Bookings.{booking_width};
ghost use Rattle.rows.specs.RowAt.{row_put};
ghost use Rattle.bookings.specs.Walking.{joinings_left};
ghost use Rattle.bookings.specs.Passes.{BookingReady, rows_in_room, held_row, claimed_rows};

use crate::booking_rows::{BookEach, FinishBooking, HoldBlock, RowPass};
use crate::joinings::Joinings;
use format::Joining;
use record::Record;
use resolver::{BlockPass, ClaimBlock, fit_in_rows, hold_blocks};
use rows::{BOOKING_WIDTH, Chronicle};

// All joinings with their number, which is counted once: a count walks over all wars.
#[derive(Clone, Copy)]
pub(crate) struct CountedJoinings<'a> {
    pub(crate) joinings: Joinings<'a>,
    pub(crate) n: usize,
    ghost counted: { n ≡ length (joinings_left joinings) },
}

impl<'a> CountedJoinings<'a> {
    ghost use Rattle.record.specs.Opened.{campaign_in};
    ghost use Rattle.rules.specs.Bookings.{joinings_of};

    // Those of a record.
    pub(crate) fn new(opened: Record<'a>) -> CountedJoinings<'a>
        ensures { joinings_left result.joinings ≡ joinings_of (campaign_in opened.entry) }
    {
        let joinings = Joinings::new(opened);
        CountedJoinings {
            joinings,
            n: joinings.count(),
        }
    }
}

// Makes the row at the front of the cells anew by a pass; where there is none, they stay as they are.
fn remake_row<P: RowPass>(pass: &P, joining: Joining, out: &mut [u32])
    ensures { out.new ≡ row_put booking_width (P.pass_row pass.now joining (take booking_width out.old)) out.old }
{
    if let Some(row) = out.first_chunk_mut::<BOOKING_WIDTH>() {
        *row = pass.row_after(joining, *row);
    }
}

// Makes the row of each joining anew by a pass, of as many as there are rows. By places, not by `as_chunks_mut`: of what is written through its parts a
// proof knows the lengths alone.
fn remake_rows<P: RowPass>(pass: &P, mut joinings: Joinings, out: &mut [u32])
    ensures { out.new ≡ rows_in_room (P.pass_row pass.now) (joinings_left joinings.entry) out.old }
{
    for i in 0..out.len() / BOOKING_WIDTH {
        let Some(joining) = joinings.next() else {
            return;
        };
        remake_row(pass, joining, &mut out[BOOKING_WIDTH * i..]);
    }
}

// Each row's best claim so far is held against that of a block.
impl BlockPass for Joinings<'_> {
    ghost held = { λ joinings keys owners out. rows_in_room (held_row keys owners) (joinings_left joinings) out };

    fn hold(&self, block: &ClaimBlock, out: &mut [u32]) {
        remake_rows(&HoldBlock { block: *block }, *self, out);
    }
}

// Books all joinings block by block. A row holds a nation's number in 32 bits until the end; a chronicle that has more nations is passed over anew for
// each joining.
pub(crate) fn book_rows(counted: CountedJoinings, chronicle: Chronicle<'_>, out: &mut [u32])
    requires { BookingReady (joinings_left counted.joinings) chronicle.nations.now chronicle.entries.now out.old }
    ensures { out.new ≡ claimed_rows chronicle.entry (joinings_left counted.entry.joinings) out.old }
{
    let nations = chronicle.nations;
    if fit_in_rows(nations) {
        out[..BOOKING_WIDTH * counted.n].fill(0);
        hold_blocks(&counted.joinings, chronicle, out);
        remake_rows(&FinishBooking { nations }, counted.joinings, out);
    } else {
        remake_rows(&BookEach { chronicle }, counted.joinings, out);
    }
}
