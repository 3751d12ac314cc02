//! The four forms of the resolver. Each is lent nation words and entry words, and refuses by `NotWellShaped` a chronicle that is not well shaped, then by
//! `BadQuestion` a bad tag, date or day. That nobody is found is no refusal.
ghost use Rattle.std.specs.Prelude.{◌≡◌, IfOk};
ghost use Rattle.std.proofs.Math.Option.{map};
ghost use Rattle.lists.specs.Options.{option_of};
ghost use Rattle.format.specs.RefusalNumber.{number_of};
ghost use Rattle.rules.specs.Outcomes.{call_resolve, call_initial, call_resolve_on, call_initial_on};
ghost use Rattle.rules.specs.Lent.{answer_of};
ghost use Rattle.resolver.specs.Claims.{plain_of};
ghost use Rattle.resolver.specs.Found.{asked_number, day_asked, switched_asked};

use crate::best::{best_claim, best_initial};
use crate::claims::Claim;
use crate::worn::worn_on;
use format::{CountryTag, Eu4Date, Refusal, TagData};
use rows::{Chronicle, nation_row_at};

// The chronicle that a question is asked of. Refused are one that is not well shaped, and a question whose tag or one of whose dates is bad.
fn open_asked<'a>(
    nations: &'a [u32],
    entries: &'a [u32],
    tag: CountryTag,
    dates: &[Eu4Date],
) -> Result<Chronicle<'a>, Refusal>
    ensures number { number_of result ≡ asked_number nations.now entries.now tag dates.now }
    ensures chronicle { IfOk result (λ c. (c.nations.now ≡ nations.entry.now) × (c.entries.now ≡ entries.entry.now)) }
{
    let chronicle = Chronicle::open(nations, entries)?;
    if !(tag.is_valid() & dates.iter().all(|date| date.is_valid())) {
        return Err(Refusal::BadQuestion);
    }
    Ok(chronicle)
}

// Latest and stored tag of the nation that a claim found.
fn plain_answer(nations: &[u32], best: Option<Claim>) -> Option<TagData>
    ensures { option_of result ≡ map (plain_of nations.now) (option_of best) }
{
    let nation = nation_row_at(nations, best?.nation);
    Some(TagData {
        current: nation.latest,
        stored: nation.stored,
    })
}

// The tag that it wears on the day, without a switch up to then its initial.
fn day_answer(chronicle: Chronicle<'_>, best: Option<Claim>, day: Eu4Date) -> Option<TagData>
    ensures { option_of result ≡ map (day_asked chronicle.entry day) (option_of best) }
{
    let nation = nation_row_at(chronicle.nations, best?.nation);
    let current = worn_on(chronicle.entries, nation, day).unwrap_or(nation.initial);
    Some(TagData {
        current,
        stored: nation.stored,
    })
}

// The same, but nothing without a switch.
fn switched_answer(chronicle: Chronicle<'_>, best: Option<Claim>, day: Eu4Date) -> Option<TagData>
    ensures { option_of result ≡ switched_asked chronicle.entry day (option_of best) }
{
    let nation = nation_row_at(chronicle.nations, best?.nation);
    let current = worn_on(chronicle.entries, nation, day)?;
    Some(TagData {
        current,
        stored: nation.stored,
    })
}

/// Where the country that went by a tag on a date is now: by its last switch to that tag up to the date, else by its initial. Asked whose Tyrone's provinces
/// are, where TYR became IRE and then GBR, it answers GBR.
///
/// # Source
/// `TagResolver::resolve` of tag_resolver.rs.
pub fn resolve(
    nations: &[u32],
    entries: &[u32],
    tag: CountryTag,
    date: Eu4Date,
) -> Result<Option<TagData>, Refusal>
    ensures { answer_of option_of result ≡ call_resolve nations.now entries.now tag.0 date.0 }
{
    let chronicle = open_asked(nations, entries, tag, &[date])?;
    let best = best_claim(chronicle, tag, date);
    Ok(plain_answer(chronicle.nations, best))
}

/// Where the country that began as a tag is now.
///
/// # Source
/// `TagResolver::initial` of tag_resolver.rs.
pub fn initial(
    nations: &[u32],
    entries: &[u32],
    tag: CountryTag,
) -> Result<Option<TagData>, Refusal>
    ensures { answer_of option_of result ≡ call_initial nations.now entries.now tag.0 }
{
    let chronicle = open_asked(nations, entries, tag, &[])?;
    let best = best_initial(chronicle.nations, tag);
    Ok(plain_answer(chronicle.nations, best))
}

/// A resolver set to a day: of each nation it looks only at the entries before the first dated later.
///
/// # Source
/// `TagResolverDated` of tag_resolver.rs.
#[derive(Clone, Copy, Debug, PartialEq, Eq)]
pub struct TagResolverDated {
    pub day: Eu4Date,
}

/// The resolver set to a day. Whether that is a good date, each of its questions asks.
///
/// # Source
/// `TagResolver::at` of tag_resolver.rs.
pub fn at(day: Eu4Date) -> TagResolverDated
    ensures { result.day ≡ day }
{
    TagResolverDated { day }
}

impl TagResolverDated {
    /// `resolve`, with the tag that the country wore on the day in place of its latest.
    ///
    /// # Source
    /// `TagResolverDated::resolve` of tag_resolver.rs.
    pub fn resolve_at(
        self,
        nations: &[u32],
        entries: &[u32],
        tag: CountryTag,
        date: Eu4Date,
    ) -> Result<Option<TagData>, Refusal>
        ensures { answer_of option_of result ≡ call_resolve_on nations.now entries.now self.day.0 tag.0 date.0 }
    {
        let chronicle = open_asked(nations, entries, tag, &[self.day, date])?;
        let best = best_claim(chronicle, tag, date);
        Ok(day_answer(chronicle, best, self.day))
    }

    /// `initial`, but nothing if the country had not switched by the day.
    ///
    /// # Source
    /// `TagResolverDated::initial` of tag_resolver.rs.
    pub fn initial_at(
        self,
        nations: &[u32],
        entries: &[u32],
        tag: CountryTag,
    ) -> Result<Option<TagData>, Refusal>
        ensures { answer_of option_of result ≡ call_initial_on nations.now entries.now self.day.0 tag.0 }
    {
        let chronicle = open_asked(nations, entries, tag, &[self.day])?;
        let best = best_initial(chronicle.nations, tag);
        Ok(switched_answer(chronicle, best, self.day))
    }
}
