//! How many bookings a record has.
ghost use Rattle.std.specs.Prelude.{◌≡◌, length};
ghost use Rattle.record.specs.Opened.{campaign_in};
ghost use Rattle.rules.specs.Bookings.{joinings_of};

use crate::passes::CountedJoinings;
use record::Record;

/// How many rows `war_participants_of` writes: one for each tag that joins a war, whatever the nations are. So a
/// caller can have room before it has these.
pub fn booking_count(opened: Record<'_>) -> usize
    ensures { result ≡ length (joinings_of (campaign_in opened.entry)) }
{
    CountedJoinings::new(opened).n
}
