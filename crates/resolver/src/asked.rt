//! Question rows: a tag and a date, a word each.
ghost use Rattle.std.specs.Prelude.{◌≡◌, ◌&&◌, length};
ghost use Rattle.lists.specs.Lists.{all_of, is_whole};
ghost use Rattle.resolver.specs.Asked.{question_at};
ghost use Rattle.rules.specs.Questions.{question_width, question_of, questions_in, question_shaped};

use format::Question;
use rows::{QUESTION_WIDTH, Row, row_at};

// How many questions the words make.
#[tactic(auto, using(crate::proofs::AskedLaws::questions_count))]
pub(crate) fn question_count(questions: &[u32]) -> usize
    ensures { result ≡ length (questions_in questions.now) }
{
    questions.len() / QUESTION_WIDTH
}

// Question number i, from 0; past the last one that of zeros.
#[tactic(auto, using(crate::proofs::AskedLaws::question_here))]
pub(crate) fn question_at(questions: &[u32], i: usize) -> Question
    ensures { result ≡ question_at questions.now i }
{
    row_at(questions, i)
}

// Whether a question's tag and date are good.
fn question_good(row: &[u32; QUESTION_WIDTH]) -> bool
    ensures { result ≡ question_shaped (question_of row.now) }
{
    let question = Question::read(*row);
    question.tag.is_valid() & question.date.is_valid()
}

// Whether the words are whole rows, and every question is good.
pub(crate) fn questions_good(questions: &[u32]) -> bool
    ensures { result ≡ (is_whole question_width questions.now && all_of question_shaped (questions_in questions.now)) }
{
    let (rows, over) = questions.as_chunks::<QUESTION_WIDTH>();
    over.is_empty() && rows.iter().all(question_good)
}
