// The checks of both entry points, in document 01's order. They write nothing.
ghost use Rattle.std.specs.Prelude.{◌≡◌};
ghost use Rattle.answers.specs.Refusals.{told_outcome};
ghost use Rattle.transform.specs.Calls.{transform_checks};
ghost use Rattle.transform.specs.Lengths.{bad_length};

use answers::Refusal;
use field::size;
use limits::{LONGEST, check_symbols};

// Whether SHAPE refuses a list of that length.
#[tactic(auto, unfolding(limits::specs::Shape::longest, crate::specs::Lengths::bad_length))]
pub fn bad_length(length: usize) -> bool
    ensures { result ≡ bad_length length }
{
    length == 0 || LONGEST < length || size(length) != length
}

#[tactic(auto, using(answers::proofs::Checks::stops, answers::proofs::Checks::goes_on), unfolding(crate::specs::Calls::transform_checks))]
pub fn transform_checks(list: &[u32], room: usize) -> Result<(), Refusal>
    ensures { told_outcome result ≡ transform_checks list.now room }
{
    if bad_length(list.len()) {
        return Err(Refusal::Shape);
    }
    if room < list.len() {
        return Err(Refusal::Room);
    }
    check_symbols(list)
}
