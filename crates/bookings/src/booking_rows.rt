//! One row of three words. Until the last pass its second and third word hold the date and the nation number plus 1 of its best claim so far, so that it is
//! no `Booking` before: it stays words.
ghost use Rattle.std.specs.Prelude.{◌≡◌, List, ℕ};
ghost use Rattle.lists.specs.Options.{option_of};
ghost use Rattle.format.specs.declared.values.Joining.{Joining};
ghost use Rattle.resolver.specs.Holding.{block_keys, block_owners};
ghost use Rattle.rules.specs.Bookings.{booking_words};
ghost use Rattle.bookings.specs.Passes.{held_row, stored_tag, booked, final_row, claimed_row};

use format::{Booking, Joining};
use resolver::{ClaimBlock, best_claim, row_owner};
use rows::{BOOKING_WIDTH, Chronicle, nation_row_at};

// A pass over the rows: what it makes of a joining's row.
pub(crate) trait RowPass {
    ghost pass_row: { Self → Joining → List ℕ → List ℕ };

    // The row behind the pass, by the row before it.
    fn row_after(&self, joining: Joining, before: [u32; BOOKING_WIDTH]) -> [u32; BOOKING_WIDTH]
        ensures { result ≡ pass_row self.now joining before };
}

// Holds a row's best claim so far against that of a block.
#[derive(Clone, Copy)]
pub(crate) struct HoldBlock<'a> {
    pub(crate) block: ClaimBlock<'a>,
}

impl RowPass for HoldBlock<'_> {
    ghost pass_row = { λ pass. held_row (block_keys pass.block) (block_owners pass.block) };

    fn row_after(&self, joining: Joining, before: [u32; BOOKING_WIDTH]) -> [u32; BOOKING_WIDTH] {
        let [_, best, owner] = before;
        let [date, number] = self
            .block
            .updated_row(joining.tag, joining.date, best, owner);
        [0, date, number]
    }
}

// The booking of a joining: its war, its tag, and the stored tag of the nation of that number; for none the tag itself.
fn booking(nations: &[u32], joining: Joining, nation: Option<usize>) -> Booking
    ensures { result ≡ booked joining (stored_tag nations.now joining.tag (option_of nation)) }
{
    let stored = match nation {
        Some(number) => nation_row_at(nations, number).stored,
        None => joining.tag,
    };
    Booking {
        war: joining.war,
        tag: joining.tag,
        stored,
    }
}

// The words of a booking.
fn booking_words(booking: Booking) -> [u32; BOOKING_WIDTH]
    ensures { result ≡ booking_words booking }
{
    [booking.war, booking.tag.into(), booking.stored.into()]
}

// Turns a row from its best claim into the booking.
#[derive(Clone, Copy)]
pub(crate) struct FinishBooking<'a> {
    pub(crate) nations: &'a [u32],
}

impl RowPass for FinishBooking<'_> {
    ghost pass_row = { λ pass. final_row pass.nations.now };

    fn row_after(&self, joining: Joining, before: [u32; BOOKING_WIDTH]) -> [u32; BOOKING_WIDTH] {
        let [_, _, owner] = before;
        booking_words(booking(self.nations, joining, row_owner(owner)))
    }
}

// Books a joining by a pass over the whole chronicle.
#[derive(Clone, Copy)]
pub(crate) struct BookEach<'a> {
    pub(crate) chronicle: Chronicle<'a>,
}

impl RowPass for BookEach<'_> {
    ghost pass_row = { λ pass j _. claimed_row pass.chronicle.nations.now pass.chronicle.entries.now j };

    fn row_after(&self, joining: Joining, _before: [u32; BOOKING_WIDTH]) -> [u32; BOOKING_WIDTH] {
        let best = best_claim(self.chronicle, joining.tag, joining.date);
        let nation = best.map(|claim| claim.nation);
        booking_words(booking(self.chronicle.nations, joining, nation))
    }
}
