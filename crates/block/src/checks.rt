// The checks of encode and decode, in document 01's order. They write nothing.
ghost use Rattle.std.specs.Prelude.{◌≡◌};
ghost use Rattle.answers.specs.Refusals.{told_outcome};
ghost use Rattle.block.specs.Checks.{encode_checks, decode_checks};

use crate::rooms::{decode_work, encode_work};
use answers::Refusal;
use code_positions::{first_outside, first_repeat};
use limits::{bad_shape, check_symbols, too_short};

// out and work are the lengths of the output and of the working space.
#[tactic(auto, using(answers::proofs::Checks::in_order), unfolding(crate::specs::Checks::encode_checks))]
pub fn encode_checks(
    k: usize,
    n: usize,
    message: &[u32],
    out: usize,
    work: usize,
) -> Result<(), Refusal>
    ensures { told_outcome result ≡ encode_checks k n message.now out work }
{
    if bad_shape(k, n) {
        return Err(Refusal::Shape);
    }
    if message.len() != k {
        return Err(Refusal::Length);
    }
    if too_short(out, n, work, encode_work(n)) {
        return Err(Refusal::Room);
    }
    check_symbols(message)
}

#[tactic(auto, using(crate::proofs::Passing::positions_in_order), unfolding(crate::specs::Checks::decode_checks, code::specs::Held::held))]
pub fn decode_checks(
    k: usize,
    n: usize,
    positions: &[u32],
    values: &[u32],
    out: usize,
    work: usize,
) -> Result<(), Refusal>
    ensures { told_outcome result ≡ decode_checks k n positions.now values.now out work }
{
    if bad_shape(k, n) {
        return Err(Refusal::Shape);
    }
    if positions.len() != values.len() {
        return Err(Refusal::Length);
    }
    if too_short(out, k, work, decode_work(n)) {
        return Err(Refusal::Room);
    }
    if positions.len() < k {
        return Err(Refusal::Few);
    }
    if let Some(i) = first_outside(n, positions) {
        return Err(Refusal::Position(i));
    }
    if let Some(i) = first_repeat(positions) {
        return Err(Refusal::Repeat(i));
    }
    check_symbols(values)
}
