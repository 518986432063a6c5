// The field operations that callers can reach: each tests its operands and refuses by VALUE.
ghost use Rattle.std.specs.Prelude.{◌≡◌, ◌∷◌, []};
ghost use Rattle.answers.specs.Refusals.{the_result, told_outcome};
ghost use Rattle.limits.specs.Values.{refuse_above};
ghost use Rattle.field_calls.specs.Operations.{told_symbol, sum_answer, difference_answer, product_answer, power_answer, inverse_answer};

use answers::Refusal;
use limits::check_symbols;

// Two operands, counted as a list from 0.
fn check_operands(a: u32, b: u32) -> Result<(), Refusal>
    ensures { told_outcome result ≡ refuse_above (a ∷ b ∷ []) (the_result []) }
{
    check_symbols(&[a, b])
}

#[tactic(auto, using(limits::proofs::Values::both_symbols))]
pub fn sum(a: u32, b: u32) -> Result<u32, Refusal>
    ensures { told_symbol result ≡ sum_answer a b }
{
    check_operands(a, b)?;
    Ok(field::sum(a, b))
}

#[tactic(auto, using(limits::proofs::Values::both_symbols))]
pub fn difference(a: u32, b: u32) -> Result<u32, Refusal>
    ensures { told_symbol result ≡ difference_answer a b }
{
    check_operands(a, b)?;
    Ok(field::difference(a, b))
}

pub fn product(a: u32, b: u32) -> Result<u32, Refusal>
    ensures { told_symbol result ≡ product_answer a b }
{
    check_operands(a, b)?;
    Ok(field::product(a, b))
}

// The exponent is an operand like the base: x to the power 65536 is 1 or 0, so larger ones give nothing new.
pub fn power(x: u32, exponent: u32) -> Result<u32, Refusal>
    ensures { told_symbol result ≡ power_answer x exponent }
{
    check_operands(x, exponent)?;
    Ok(field::power(x, exponent as usize))
}

// Zero has no inverse.
pub fn inverse(x: u32) -> Result<u32, Refusal>
    ensures { told_symbol result ≡ inverse_answer x }
{
    if 65536 < x || x == 0 {
        return Err(Refusal::Value(0));
    }
    Ok(field::inverse(x))
}
