//! libpage.a: the functions of crate page, exported for C; what each does is told there. `check` and `page` have their names, the others that of crate page
//! behind `chronicle_`, so that a program with a `players` of its own links. A slice is a pointer and then a length.
#![tactic(auto)]

ghost use Rattle.std.specs.Prelude.{min, pos, ◌≡◌};
ghost use Rattle.format.specs.RecordNumber.{refusal};
ghost use Rattle.players.specs.LentSlices.{history_cells};
ghost use Rattle.page.specs.Host.{Returns, call_events_on_cells, call_nation_events_cells, most_returned, nation_slices, returned};
ghost use Rattle.page.specs.Playing.{call_player_histories_given, call_starting_country_cells};
ghost use Rattle.page.specs.Resolving.{data_cells};
ghost use Rattle.ledger.specs.LentSlices.{ledger_cells};
ghost use Rattle.nations.specs.LentCells.{nation_cells};
ghost use Rattle.rules.specs.Outcomes.{call_initial, call_initial_on, call_nation_ledger, call_nation_ledger_rows, call_nation_ledgers, call_province_owners, call_resolve, call_resolve_on, call_war_participants};
ghost use Rattle.rules.specs.PageOutcomes.{call_page};
ghost use Rattle.rules.specs.PlayerOutcomes.{call_players};
ghost use Rattle.rules.specs.Questions.{call_resolve_each};

/// The record's refusal number, 0 when it is accepted.
#[unsafe(no_mangle)]
pub extern "C" fn check(s: &[u8]) -> i64
    ensures { result ≡ pos (refusal s.now) }
{
    page::check(s)
}

/// The owner changes of a record, and how many rows they are.
#[unsafe(no_mangle)]
pub extern "C" fn chronicle_province_owners(s: &[u8], out: &mut [u32]) -> i64
    ensures { Returns (call_province_owners s.now out.old) result out.new }
{
    page::province_owners(s, out)
}

/// The run of owner changes on a date: where it begins and how long it is.
#[unsafe(no_mangle)]
pub extern "C" fn chronicle_events_on(s: &[u8], date: u32, out: &mut [u32]) -> i64
    ensures { Returns (call_events_on_cells s.now date out.old) result out.new }
{
    page::events_on(s, date, out)
}

/// The nations of a record, with entries, slots and changes, and the five counts of what was written.
#[unsafe(no_mangle)]
pub extern "C" fn chronicle_nation_events(
    s: &[u8],
    nations: &mut [u32],
    entries: &mut [u32],
    holders: &mut [u32],
    held: &mut [u32],
    changes: &mut [u32],
    counts: &mut [u32],
) -> i64
    ensures { Returns (call_nation_events_cells s.now (nation_slices (nation_cells nations.old entries.old holders.old held.old changes.old) counts.old)) result (nation_slices (nation_cells nations.new entries.new holders.new held.new changes.new) counts.new) }
{
    page::nation_events(s, nations, entries, holders, held, changes, counts)
}

/// The bookings of who joins a war, three words each, and how many they are.
#[unsafe(no_mangle)]
pub extern "C" fn chronicle_war_participants(
    s: &[u8],
    nations: &[u32],
    entries: &[u32],
    out: &mut [u32],
) -> i64
    ensures { Returns (call_war_participants s.now nations.now entries.now out.old) result out.new }
{
    page::war_participants(s, nations, entries, out)
}

/// The ledger of one nation, and how many rows it has.
#[unsafe(no_mangle)]
pub extern "C" fn chronicle_nation_ledger(
    s: &[u8],
    nations: &[u32],
    entries: &[u32],
    nation: usize,
    out: &mut [u32],
) -> i64
    ensures { Returns (call_nation_ledger s.now nations.now entries.now nation out.old) result out.new }
{
    page::nation_ledger(s, nations, entries, nation, out)
}

/// How many rows a nation's ledger has, up to a number.
#[unsafe(no_mangle)]
pub extern "C" fn chronicle_nation_ledger_rows(
    s: &[u8],
    nations: &[u32],
    entries: &[u32],
    nation: usize,
    most: usize,
) -> i64
    ensures { result ≡ returned (call_nation_ledger_rows s.now nations.now entries.now nation (min most most_returned)) }
{
    page::nation_ledger_rows(s, nations, entries, nation, most)
}

/// The ledgers of all nations, with a count for each.
#[unsafe(no_mangle)]
pub extern "C" fn chronicle_nation_ledgers(
    s: &[u8],
    nations: &[u32],
    entries: &[u32],
    out: &mut [u32],
    counts: &mut [u64],
) -> i64
    ensures { Returns (call_nation_ledgers s.now nations.now entries.now (ledger_cells out.old counts.old)) result (ledger_cells out.new counts.new) }
{
    page::nation_ledgers(s, nations, entries, out, counts)
}

/// The page of a selection, and how many bytes it has.
#[unsafe(no_mangle)]
pub extern "C" fn page(s: &[u8], selection: &[u8], out: &mut [u8]) -> i64
    ensures { Returns (call_page s.now selection.now out.old) result out.new }
{
    page::page(s, selection, out)
}

/// The players of a campaign, and how many.
#[unsafe(no_mangle)]
pub extern "C" fn chronicle_players(s: &[u8], out: &mut [u32]) -> i64
    ensures { Returns (call_players s.now out.old) result out.new }
{
    page::players(s, out)
}

/// The histories of players with their names, and how many histories.
#[unsafe(no_mangle)]
pub extern "C" fn chronicle_player_histories(
    s: &[u8],
    nations: &[u32],
    entries: &[u32],
    histories: &mut [u32],
    names: &mut [u32],
) -> i64
    ensures { Returns (call_player_histories_given s.now nations.now entries.now (history_cells histories.old names.old)) result (history_cells histories.new names.new) }
{
    page::player_histories(s, nations, entries, histories, names)
}

/// The country that a campaign was started as, if one can be told.
#[unsafe(no_mangle)]
pub extern "C" fn chronicle_starting_country(
    histories: &[u32],
    nations: &[u32],
    entries: &[u32],
    out: &mut [u32],
) -> i64
    ensures { Returns (call_starting_country_cells histories.now nations.now entries.now out.old) result out.new }
{
    page::starting_country(histories, nations, entries, out)
}

/// The nation that a tag means on a date.
#[unsafe(no_mangle)]
pub extern "C" fn chronicle_resolver_resolve(
    nations: &[u32],
    entries: &[u32],
    tag: u32,
    date: u32,
    out: &mut [u32],
) -> i64
    ensures { Returns (data_cells (call_resolve nations.now entries.now tag date) out.old) result out.new }
{
    page::resolver_resolve(nations, entries, tag, date, out)
}

/// The nation whose initial a tag is.
#[unsafe(no_mangle)]
pub extern "C" fn chronicle_resolver_initial(
    nations: &[u32],
    entries: &[u32],
    tag: u32,
    out: &mut [u32],
) -> i64
    ensures { Returns (data_cells (call_initial nations.now entries.now tag) out.old) result out.new }
{
    page::resolver_initial(nations, entries, tag, out)
}

/// The nation that a tag means on a date, with the tag that it wears on a day.
#[unsafe(no_mangle)]
pub extern "C" fn chronicle_resolver_resolve_at(
    nations: &[u32],
    entries: &[u32],
    day: u32,
    tag: u32,
    date: u32,
    out: &mut [u32],
) -> i64
    ensures { Returns (data_cells (call_resolve_on nations.now entries.now day tag date) out.old) result out.new }
{
    page::resolver_resolve_at(nations, entries, day, tag, date, out)
}

/// The nation whose initial a tag is, with the tag that it wears on a day.
#[unsafe(no_mangle)]
pub extern "C" fn chronicle_resolver_initial_at(
    nations: &[u32],
    entries: &[u32],
    day: u32,
    tag: u32,
    out: &mut [u32],
) -> i64
    ensures { Returns (data_cells (call_initial_on nations.now entries.now day tag) out.old) result out.new }
{
    page::resolver_initial_at(nations, entries, day, tag, out)
}

/// The answers to many questions, two words each.
#[unsafe(no_mangle)]
pub extern "C" fn chronicle_resolver_resolve_each(
    nations: &[u32],
    entries: &[u32],
    questions: &[u32],
    out: &mut [u32],
) -> i64
    ensures { Returns (call_resolve_each nations.now entries.now questions.now out.old) result out.new }
{
    page::resolver_resolve_each(nations, entries, questions, out)
}
