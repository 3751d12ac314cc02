//! The nation that a question finds is that of the latest claim to the tag.
ghost use Rattle.std.specs.Prelude.{◌≡◌};
ghost use Rattle.lists.specs.Options.{option_of};
ghost use Rattle.resolver.specs.Claims.{initial_claims, claims_of, best_of, last_to};

use crate::claims::{Claim, Claims};
use format::{CountryTag, Eu4Date};
use rows::{Chronicle, Nations};

/// The claim that answers a question, by one pass over a chronicle of any words at all: the latest to the tag that is dated not after the date, and of
/// equals the last.
pub fn best_claim(chronicle: Chronicle<'_>, tag: CountryTag, date: Eu4Date) -> Option<Claim>
    ensures { option_of result ≡ best_of tag date (claims_of chronicle.entry) }
{
    Claims::new(chronicle)
        .filter(|claim| (claim.tag == tag) & (claim.date <= date))
        .reduce(|best, claim| if claim.date < best.date { best } else { claim })
}

// The last nation's claim to a tag as its initial, dated before every date.
pub(crate) fn best_initial(nations: &[u32], tag: CountryTag) -> Option<Claim>
    ensures { option_of result ≡ last_to tag (initial_claims nations.now) }
{
    Nations::new(nations)
        .enumerate()
        .filter(|(_, row)| row.initial == tag)
        .last()
        .map(|(nation, row)| Claim {
            tag: row.initial,
            date: Eu4Date::BEFORE_ALL,
            nation,
        })
}
