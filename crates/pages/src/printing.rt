//! What the program page prints, in a slice.
ghost use Rattle.std.specs.Prelude.{◌≡◌, ◌≤◌, IsOk, length};
ghost use Rattle.format.specs.RefusalNumber.{refusal_number};
ghost use Rattle.rules.specs.Lent.{outcome_of};
ghost use Rattle.std.proofs.Math.Option.{some};
ghost use Rattle.rules.specs.PageOutcomes.{refused_line, call_program};
ghost use Rattle.pages.specs.Texts.{call_lines};
ghost use Rattle.pages.specs.declared.printing.TheConstants.{PRINTED_BYTES};
ghost use Rattle.pages.specs.Printing.{file_read, most_printed, call_print};

use crate::lines::{SHORT_LINE, refused_line};
use crate::paging::{MOST_BYTES, checked_page};
use crate::selection::TAG_LINE;
use format::Refusal;

// The first line of the most tags.
const FIRST_LINE: usize = 15;

// The most tags, each with a line feed behind it.
const MOST_TAGS: usize = MOST_BYTES / TAG_LINE;

/// Room for every page: no nation of a page has so many entries that its line is not short.
pub const PRINTED_BYTES: usize = FIRST_LINE + SHORT_LINE * MOST_TAGS;

// Writes the line of a refusal, and gives how many bytes it has; refused where it has no room.
fn put_refusal(refusal: Refusal, out: &mut [u8]) -> Result<usize, Refusal>
    ensures outcome { outcome_of (λ n. n) result out.new ≡ call_lines (refused_line (refusal_number refusal)) out.old }
    ensures room { length (refused_line (refusal_number refusal)) ≤ length out.old → IsOk result }
{
    let line = refused_line(refusal.number());
    let n = line.len();
    if out.len() < n {
        return Err(Refusal::NoRoom);
    }
    out[..n].copy_from_slice(line.as_slice());
    Ok(n)
}

// What the program prints of the bytes read, in a slice.
fn print_bytes(s: &[u8], selection: &[u8], out: &mut [u8]) -> Result<usize, Refusal>
    ensures outcome { outcome_of (λ n. n) result out.new ≡ call_lines (call_program (some s.now) selection.now) out.old }
    ensures room { most_printed ≤ length out.old → IsOk result }
{
    match checked_page(s, selection, out) {
        Ok(page) => page.ok_or(Refusal::NoRoom),
        Err(refusal) => put_refusal(refusal, out),
    }
}

/// What the program prints of campaign.atl, its bytes as far as they were read, or nothing if it could not be read, and of the selection: the page, or the
/// line `refused` with the number of its refusal; returns how many bytes that is. Refused by `NoRoom` if the slice is shorter: `PRINTED_BYTES` are enough.
pub fn print_page(
    campaign: Option<&[u8]>,
    selection: &[u8],
    out: &mut [u8],
) -> Result<usize, Refusal>
    ensures outcome { outcome_of (λ n. n) result out.new ≡ call_print (file_read campaign.entry) selection.now out.old }
    ensures room { PRINTED_BYTES ≤ length out.old → IsOk result }
{
    print_bytes(campaign.unwrap_or(&[]), selection, out)
}
