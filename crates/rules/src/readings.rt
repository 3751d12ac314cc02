//! What definitions come to that count along a walk, search with a running number, or tell cases apart by form: the plain reading of each is a law of the rules,
//! for which no code is needed, as the promise of a function.
ghost use Rattle.std.specs.Prelude.{◌≡◌, ◌≤◌, ◌<◌, List, [], ◌∷◌, ◌++◌, ℕ, true, false, eqb, length, take};
ghost use Rattle.std.proofs.Math.Option.{Option, none, some};
ghost use Rattle.std.proofs.Math.ListN.{get_elem?};
ghost use Rattle.lists.specs.Lists.{All, any_of, count_of, first_or};
ghost use Rattle.format.specs.declared.tag.CountryTag.{CountryTag};
ghost use Rattle.format.specs.declared.date.Eu4Date.{Eu4Date};
ghost use Rattle.format.specs.Dates.{earlier};
ghost use Rattle.format.specs.Campaign.{Country, campaign_of};
ghost use Rattle.format.specs.RecordNumber.{refusal};
ghost use Rattle.format.specs.declared.values.EntryKind.{EntryKind};
ghost use Rattle.format.specs.declared.values.EntryKind.TheVariants.{TagSwitch, Appeared, Annexed};
ghost use Rattle.format.specs.declared.values.HistoryRow.{HistoryRow};
ghost use Rattle.rules.specs.Chronicle.{Nation};
ghost use Rattle.rules.specs.Nations.{Move, start_holders, moves_of, turns_from, turn_entries, turn_count, lives_from, lives_of};
ghost use Rattle.rules.specs.NationRows.{kind_word, target_word, kind_of, kind_shaped};
ghost use Rattle.rules.specs.Histories.{history_of};
ghost use Rattle.rules.specs.StartingCountry.{lacks_appeared, starting_country};
ghost use Rattle.rules.specs.Page.{decimal};
ghost use Rattle.rules.specs.Readings.{slots_held, moved, is_old, is_new, after_moves, move_entries, lives_by_slots, stored_under, told_by, bare, number_said};

/// Annexed and Appeared (Rules 4.7) by the slots alone, with no number kept.
///
/// `turn`: a move tells a country Annexed exactly if the slot was its own and it holds none without it; then Appeared exactly if the slot becomes its own, it
/// held none until then, and the start is past. `count`: the number kept is that of the slots held behind the move. `cut`: so it is behind any moves.
/// `itself`: whoever loses its last slot to itself, the start being past, is told both. `lives`: all of this, move by move, of an accepted record.
#[tactic(auto, using(crate::proofs::PlainLaws::lives_plain))]
pub fn lives_reading()
    ensures turn { (start : Eu4Date) (t : CountryTag) (holders : List (Option CountryTag)) (m : Move) → m.slot.0 < length holders
        → turn_entries start m.date (is_old t holders m) (is_new t m) (slots_held t holders) ≡ move_entries start t holders m }
    ensures count { (t : CountryTag) (holders : List (Option CountryTag)) (m : Move) → m.slot.0 < length holders
        → turn_count (is_old t holders m) (is_new t m) (slots_held t holders) ≡ slots_held t (moved holders m) }
    ensures cut { (start : Eu4Date) (t : CountryTag) (holders : List (Option CountryTag)) (ms later : List Move)
        → All (λ m. m.slot.0 < length holders) ms
        → lives_from start t (turns_from holders (ms ++ later)) (slots_held t holders)
        ≡ lives_from start t (turns_from holders ms) (slots_held t holders)
        ++ lives_from start t (turns_from (after_moves ms holders) later) (slots_held t (after_moves ms holders)) }
    ensures itself { (start date : Eu4Date) → earlier start date ≡ true
        → turn_entries start date true true 1 ≡ record { date = date; kind = Annexed } ∷ record { date = date; kind = Appeared } ∷ [] }
    ensures lives { (xs : List ℕ) → refusal xs ≡ 0 → (t : CountryTag)
        → lives_of (campaign_of xs) t
        ≡ lives_by_slots (campaign_of xs).start t (start_holders (campaign_of xs)) (moves_of (campaign_of xs)) }
{}

/// An entry's kind and target words (Rules 4.12, 4.19). `back`: a kind that was written is read back. `kinds`: 0 is a switch to its target, 1 Appeared, 2 Annexed.
/// `kind`, `target`: two words that are well shaped are those of the kind that they are read as.
#[tactic(auto, using(crate::proofs::PlainLaws::kind_plain))]
pub fn kind_reading()
    ensures back { (k : EntryKind) → kind_of (kind_word k) (target_word k) ≡ k }
    ensures kinds { (target : ℕ)
        → (kind_of 0 target ≡ TagSwitch (record { 0 = target })) × (kind_of 1 target ≡ Appeared) × (kind_of 2 target ≡ Annexed) }
    ensures kind { (kind target : ℕ) → kind_shaped kind target ≡ true → kind_word (kind_of kind target) ≡ kind }
    ensures target { (kind target : ℕ) → kind_shaped kind target ≡ true → target_word (kind_of kind target) ≡ target }
{}

/// The history of a country (Rules 8.4). `told`: nation i tells it, by its tags and its number, if it is stored under the country and none before it is. `bare`: if
/// none is, the country's tag stands for all three.
#[tactic(auto, using(crate::proofs::PlainLaws::history_plain))]
pub fn history_reading()
    ensures told { (names : List ℕ) (k : Country) (ns : List Nation) (i : ℕ) (n : Nation)
        → get_elem? ns i ≡ some n → stored_under k n ≡ true → any_of (stored_under k) (take i ns) ≡ false
        → history_of names k 0 ns ≡ told_by names k i n }
    ensures bare { (names : List ℕ) (k : Country) (ns : List Nation) → any_of (stored_under k) ns ≡ false
        → history_of names k 0 ns ≡ bare names k }
{}

/// The starting country (Rules 8.14). `alone`: if exactly one history lacks Appeared, it is that one's initial. `sole`: a history without others tells its initial,
/// whether it lacks Appeared or not. `others`: in any other case there is none.
#[tactic(auto, using(crate::proofs::PlainLaws::starting_country_plain))]
pub fn starting_country_reading()
    ensures alone { (ns : List Nation) (rs : List HistoryRow) (i : ℕ) (r : HistoryRow)
        → count_of (lacks_appeared ns) rs ≡ 1 → get_elem? rs i ≡ some r → lacks_appeared ns r ≡ true
        → starting_country ns rs ≡ some r.initial }
    ensures sole { (ns : List Nation) (r : HistoryRow) → starting_country ns (r ∷ []) ≡ some r.initial }
    ensures others { (ns : List Nation) (rs : List HistoryRow)
        → eqb (count_of (lacks_appeared ns) rs) 1 ≡ false → eqb (length rs) 1 ≡ false → starting_country ns rs ≡ none }
{}

/// A number in decimal (Rules 9.7). `said`: its digits say it. `digits`: each byte is a digit's, 48 to 57. `leads`: a number above 0 does not begin with a zero.
/// `zero`: 0 is the one digit 0.
#[tactic(auto, using(crate::proofs::PlainLaws::decimal_plain))]
pub fn decimal_reading()
    ensures said { (n : ℕ) → number_said (decimal n) ≡ n }
    ensures digits { (n : ℕ) → All (λ b. (48 ≤ b) × (b ≤ 57)) (decimal n) }
    ensures leads { (n : ℕ) → 0 < n → 48 < first_or 0 (decimal n) }
    ensures zero { decimal 0 ≡ 48 ∷ [] }
{}
