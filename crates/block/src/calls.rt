// The entry points: they test their input and refuse by document 01's numbers. Refusals 1 to 7 come before anything lent is written, DISAGREE
// after the work, with the stated working space cleared.
ghost use Rattle.std.specs.Prelude.{◌≡◌};
ghost use Rattle.answers.specs.Leaves.{leaving};
ghost use Rattle.answers.specs.Refusals.{told_outcome};
ghost use Rattle.block.specs.Calls.{encode_leaves, decode_leaves};

use crate::checks;
use crate::rooms::{decode_work, encode_work};
use answers::Refusal;
use code::spread;
use decode_block::recover;

// The code word e_i = s(r^i) of the message, for i = 0 .. n - 1, at the output's front.
#[tactic(auto, using(crate::proofs::Calling::encoding))]
pub fn encode(
    k: usize,
    n: usize,
    message: &[u32],
    out: &mut [u32],
    work: &mut [u32],
) -> Result<(), Refusal>
    ensures { leaving (told_outcome result) out.new work.new
        ≡ encode_leaves k n message.now out.old work.old }
{
    checks::encode_checks(k, n, message, out.len(), work.len())?;
    let stated = encode_work(n);
    spread(n, message, out, &mut work[0..stated]);
    Ok(())
}

// The message that fits all the symbols given, at the output's front; DISAGREE where none does.
#[tactic(auto, using(crate::proofs::Calling::decoding))]
pub fn decode(
    k: usize,
    n: usize,
    positions: &[u32],
    values: &[u32],
    out: &mut [u32],
    work: &mut [u32],
) -> Result<(), Refusal>
    ensures { leaving (told_outcome result) out.new work.new
        ≡ decode_leaves k n positions.now values.now out.old work.old }
{
    checks::decode_checks(k, n, positions, values, out.len(), work.len())?;
    let stated = decode_work(n);
    recover(k, n, positions, values, out, &mut work[0..stated])
}
