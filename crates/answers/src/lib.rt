// The refusals that every crate above answers with, and how an answer is told to a caller from C.
#![tactic(auto)]

mod refusal;

ghost use Rattle.std.specs.Prelude.{◌≡◌};
ghost use Rattle.answers.specs.Refusals.{told_outcome};
ghost use Rattle.answers.specs.Telling.{status_number, returned};

pub use refusal::Refusal;

// 0 or the refusal's number; the place goes to number.
pub fn tell(outcome: Result<(), Refusal>, number: &mut usize) -> u32
    ensures { status_number result number.new ≡ returned (told_outcome outcome) }
{
    match outcome {
        Ok(()) => {
            *number = 0;
            0
        }
        Err(refusal) => {
            *number = refusal.place();
            refusal.number()
        }
    }
}
