//! What holds of packed records, whatever the campaign: laws, for which no code is needed, as the promises of functions.
ghost use Rattle.std.specs.Prelude.{◌≡◌, ◌<◌, List, ℕ};
ghost use Rattle.lists.specs.Lists.{All};
ghost use Rattle.format.specs.Head.{head_of};
ghost use Rattle.format.specs.Campaign.{Campaign, campaign_of};
ghost use Rattle.format.specs.RecordNumber.{refusal};
ghost use Rattle.format.specs.Sound.{Sound};
ghost use Rattle.packing.specs.Bounds.{Byte, CitiesFit, Fits};
ghost use Rattle.packing.specs.Framed.{Framed, tail_of};
ghost use Rattle.packing.specs.Packing.{pack, pack_with};

/// A campaign is read again from its record (Rules 1.11). `told`: packed in any edition, with any tail, it is the campaign of these bytes, if its cities fit
/// four bytes. `accepted`: if its fields are sound too, its record is accepted.
#[tactic(auto, using(crate::proofs::RecordLaws::campaign_laws))]
pub fn packed_campaign()
    ensures told { (edition : ℕ) (c : Campaign) (tail : List ℕ) → CitiesFit c
        → campaign_of (pack_with edition c tail) ≡ c }
    ensures accepted { (c : Campaign) → Sound c → CitiesFit c → refusal (pack c) ≡ 0 }
{}

/// Bytes are written again from their campaign (Rules 1.11). `accepted`: an accepted record is the record of its campaign. `once`: so no two accepted
/// records tell one campaign. `framed`: bytes that are whole as a record, in any edition, are written again too, with the edition and what it appends
/// left as they are.
#[tactic(auto, using(crate::proofs::RecordLaws::again_laws))]
pub fn packed_again()
    ensures accepted { (xs : List ℕ) → All Byte xs → refusal xs ≡ 0 → pack (campaign_of xs) ≡ xs }
    ensures once { (xs ys : List ℕ) → All Byte xs → All Byte ys → refusal xs ≡ 0 → refusal ys ≡ 0
        → campaign_of xs ≡ campaign_of ys → xs ≡ ys }
    ensures framed { (xs : List ℕ) → All Byte xs → Framed xs
        → pack_with (head_of xs).version (campaign_of xs) (tail_of xs) ≡ xs }
{}

/// What is packed are bytes (Rules 1.11). `bytes`: each number of the record of a sound campaign is below 256, if what the campaign holds fits its places.
/// `fits`: what bytes tell does.
#[tactic(auto, using(crate::proofs::RecordLaws::byte_laws))]
pub fn packed_bytes()
    ensures bytes { (edition : ℕ) (c : Campaign) (tail : List ℕ) → edition < 65536 → Sound c → Fits c → All Byte tail
        → All Byte (pack_with edition c tail) }
    ensures fits { (xs : List ℕ) → All Byte xs → Fits (campaign_of xs) }
{}
