//! `resolve_each`: passes over the rows of the answer.
ghost use Rattle.std.specs.Prelude.{◌≡◌};
ghost use Rattle.rules.specs.Questions.{call_resolve_each};
ghost use Rattle.rules.specs.Lent.{outcome_of};
ghost use Rattle.resolver.specs.Passes.{QuestionsReady, rows_in_room, block_row, finished_row, asked_row, asked_rows};

use crate::asked::{question_at, question_count, questions_good};
use crate::best::best_claim;
use crate::holding::{BlockPass, ClaimBlock, fit_in_rows, hold_blocks};
use crate::words::{ANSWER_WIDTH, answer_row, put_row, row_owner};
use format::Refusal;
use rows::Chronicle;

// Holds each question's best claim so far against that of a block.
#[derive(Clone, Copy)]
struct HoldQuestions<'a> {
    questions: &'a [u32],
}

impl BlockPass for HoldQuestions<'_> {
    ghost held = { λ pass keys owners out. rows_in_room (block_row pass.questions.now keys owners out) out };

    // By places, as the passes below: of what is written through `as_chunks_mut` a proof knows the lengths alone.
    fn hold(&self, block: &ClaimBlock, out: &mut [u32]) {
        for i in 0..out.len() / ANSWER_WIDTH {
            let at = ANSWER_WIDTH * i;
            let question = question_at(self.questions, i);
            let row = block.updated_row(question.tag, question.date, out[at], out[at + 1]);
            put_row(out, i, row);
        }
    }
}

// Turns each row from date and nation number into current and stored tag.
fn finish_rows(nations: &[u32], out: &mut [u32])
    ensures { out.new ≡ rows_in_room (finished_row nations.now out.old) out.old }
{
    for i in 0..out.len() / ANSWER_WIDTH {
        let owner = row_owner(out[ANSWER_WIDTH * i + 1]);
        put_row(out, i, answer_row(nations, owner));
    }
}

// Answers each question by a pass of its own over the chronicle.
fn answer_each(chronicle: Chronicle<'_>, questions: &[u32], out: &mut [u32])
    ensures { out.new ≡ rows_in_room (asked_row chronicle.entry questions.now) out.old }
{
    for i in 0..out.len() / ANSWER_WIDTH {
        let question = question_at(questions, i);
        let best = best_claim(chronicle, question.tag, question.date);
        let nation = best.map(|claim| claim.nation);
        put_row(out, i, answer_row(chronicle.nations, nation));
    }
}

// Answers all questions block by block. A row holds a nation's number in 32 bits until the end; a chronicle that has more nations is passed over anew for
// each question.
fn answer_all(chronicle: Chronicle<'_>, questions: &[u32], out: &mut [u32])
    requires { QuestionsReady chronicle.nations.now chronicle.entries.now questions.now out.old }
    ensures { out.new ≡ asked_rows chronicle.entry questions.now out.old }
{
    let rows = &mut out[..ANSWER_WIDTH * question_count(questions)];
    if fit_in_rows(chronicle.nations) {
        rows.fill(0);
        hold_blocks(&HoldQuestions { questions }, chronicle, rows);
        finish_rows(chronicle.nations, rows);
    } else {
        answer_each(chronicle, questions, rows);
    }
}

/// Answers every question, a row of a tag and a date, as `resolve` does: a row of two words each, current and stored tag, 0 and 0 for none; returns how many
/// there are. Refused by `NotWellShaped` is a chronicle that is not well shaped, by `BadQuestion` words that are not whole rows and any bad tag or date, by
/// `NoRoom` a slice that is too short, before the first cell is written.
pub fn resolve_each(
    nations: &[u32],
    entries: &[u32],
    questions: &[u32],
    out: &mut [u32],
) -> Result<usize, Refusal>
    ensures { outcome_of (λ n. n) result out.new ≡ call_resolve_each nations.now entries.now questions.now out.old }
{
    let chronicle = Chronicle::open(nations, entries)?;
    if !questions_good(questions) {
        return Err(Refusal::BadQuestion);
    }
    let n = question_count(questions);
    if out.len() / ANSWER_WIDTH < n {
        return Err(Refusal::NoRoom);
    }
    answer_all(chronicle, questions, out);
    Ok(n)
}
