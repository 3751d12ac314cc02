//! The number that a C function returns.
ghost use Rattle.std.specs.Prelude.{◌≡◌, ◌∷◌, [], min};
ghost use Rattle.format.specs.RefusalNumber.{number_of, refusal_number};
ghost use Rattle.format.specs.RecordNumber.{first_of};
ghost use Rattle.rules.specs.Lent.{answer_of, refused};
ghost use Rattle.page.specs.Host.{returned, most_returned};

use format::Refusal;

// The largest number that can be returned.
const MOST_RETURNED: usize = i64::MAX as usize;

// What a refused call returns: minus its number.
pub(crate) fn minus(refusal: Refusal) -> i64
    ensures { result ≡ returned (refused (refusal_number refusal)) }
{
    -i64::from(refusal.number())
}

// What refuses a call without room: what the record is refused for, else that there is no room.
#[tactic(auto, unfolding(format::specs::RecordNumber::first_of))]
pub(crate) fn room_refusal(checked: Result<(), Refusal>) -> Refusal
    ensures { refusal_number result ≡ first_of (number_of checked ∷ 10 ∷ []) }
{
    checked.err().unwrap_or(Refusal::NoRoom)
}

// A number, or in place of one that no return can tell the largest that one can.
pub(crate) fn can_return(most: usize) -> usize
    ensures { result ≡ min most most_returned }
{
    most.min(MOST_RETURNED)
}

// What a call returns that counts what it wrote: its count, held at the largest number that can be told; refused, minus the refusal's number.
pub(crate) fn returned(answer: Result<usize, Refusal>) -> i64
    ensures { result ≡ returned (answer_of (λ n. min n most_returned) answer) }
{
    match answer {
        Ok(count) => can_return(count) as i64,
        Err(refusal) => minus(refusal),
    }
}
