//! The guarantee of the finished chronicle, as the promise of a function: a law of the rules, for which no code is needed.
ghost use Rattle.std.specs.Prelude.{List, ℕ};
ghost use Rattle.rules.specs.Guarantee.{FinishedChronicle};

/// What is guaranteed of every list of bytes. If they are an accepted record, and `nation_events` is lent room enough, then the rows that it writes tell the
/// record's changes and its listed nations with all their entries; each nation's entries tell on which days it lives; and on a day on which no other listed
/// nation was ever named by the tag that it wears, the resolver and the war bookings that are lent these rows find it by that tag.
#[tactic(auto, using(crate::proofs::GuaranteeLaws::finished_chronicle))]
pub fn finished_chronicle()
    ensures { (xs : List ℕ) → FinishedChronicle xs }
{}
