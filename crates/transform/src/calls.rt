// The entry points: they test their input, refuse by SHAPE, ROOM and VALUE, and work in the list that they are lent.
ghost use Rattle.std.specs.Prelude.{◌≡◌, ◌≤◌, length};
ghost use Rattle.answers.specs.Leaves.{leaving, zeroed};
ghost use Rattle.answers.specs.Refusals.{told_outcome};
ghost use Rattle.transform.specs.Calls.{transform_leaves, inverse_leaves};

use crate::checks::transform_checks;
use answers::Refusal;
use cells::clear;

// As much of the working space is cleared as is stated, which is as long as the list.
#[tactic(auto, using(crate::proofs::Passing::stated_zeroed))]
fn clear_stated(list: &[u32], work: &mut [u32])
    requires { length list.now ≤ length work.old }
    ensures { work.new ≡ zeroed (length list.now) work.old }
{
    let size = list.len();
    clear(&mut work[0..size]);
}

// A_j = sum over i of a_i · r^(ij), in place of the list. As much of the working space as the list is long is zero
// afterwards.
#[tactic(auto, using(crate::proofs::Passing::calls))]
pub fn transform(list: &mut [u32], work: &mut [u32]) -> Result<(), Refusal>
    ensures { leaving (told_outcome result) list.new work.new
        ≡ transform_leaves list.old work.old }
{
    transform_checks(list, work.len())?;
    transform_halving::transform(list);
    clear_stated(list, work);
    Ok(())
}

// a_j = (1/N) · sum over i of A_i · r^(-ij), in place of the list. As much of the working space as the list is long is zero
// afterwards.
#[tactic(auto, using(crate::proofs::Passing::calls))]
pub fn inverse(list: &mut [u32], work: &mut [u32]) -> Result<(), Refusal>
    ensures { leaving (told_outcome result) list.new work.new
        ≡ inverse_leaves list.old work.old }
{
    transform_checks(list, work.len())?;
    transform_halving::inverse(list);
    clear_stated(list, work);
    Ok(())
}
