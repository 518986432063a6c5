// The face: the functions that C calls. Each hands its arguments to a proved function and turns the answer into number and place; nothing else
// is done here.
#![tactic(auto)]

mod bundles;
mod room;

ghost use Rattle.std.specs.Prelude.{◌≡◌};
ghost use Rattle.field_calls.specs.Points.{point_answer};
ghost use Rattle.transform.specs.Calls.{transform_leaves, inverse_leaves};
ghost use Rattle.block.specs.Calls.{encode_leaves, decode_leaves};
ghost use Rattle.answers.specs.Telling.{status_number};
ghost use Rattle.sulmirejo.specs.Face.{with_point, point_returned, with_lists, lists_returned};

use answers::tell;
use field::Position;

#[unsafe(no_mangle)]
pub extern "C" fn sulmirejo_point(
    n: usize,
    position: usize,
    point: &mut u32,
    number: &mut usize,
) -> u32
    ensures { with_point (status_number result number.new) point.new
        ≡ point_returned (point_answer n position) point.old }
{
    match field_calls::point_at(n, Position(position)) {
        Ok(found) => {
            *point = found.0;
            tell(Ok(()), number)
        }
        Err(refusal) => tell(Err(refusal), number),
    }
}

#[unsafe(no_mangle)]
pub extern "C" fn sulmirejo_transform(list: &mut [u32], work: &mut [u32], number: &mut usize) -> u32
    ensures { with_lists (status_number result number.new) list.new work.new
        ≡ lists_returned (transform_leaves list.old work.old) }
{
    tell(transform::transform(list, work), number)
}

#[unsafe(no_mangle)]
pub extern "C" fn sulmirejo_inverse(list: &mut [u32], work: &mut [u32], number: &mut usize) -> u32
    ensures { with_lists (status_number result number.new) list.new work.new
        ≡ lists_returned (inverse_leaves list.old work.old) }
{
    tell(transform::inverse(list, work), number)
}

#[unsafe(no_mangle)]
pub extern "C" fn sulmirejo_encode(
    k: usize,
    n: usize,
    message: &[u32],
    out: &mut [u32],
    work: &mut [u32],
    number: &mut usize,
) -> u32
    ensures { with_lists (status_number result number.new) out.new work.new
        ≡ lists_returned (encode_leaves k n message.now out.old work.old) }
{
    tell(block::encode(k, n, message, out, work), number)
}

#[unsafe(no_mangle)]
pub extern "C" fn sulmirejo_decode(
    k: usize,
    n: usize,
    positions: &[u32],
    values: &[u32],
    out: &mut [u32],
    work: &mut [u32],
    number: &mut usize,
) -> u32
    ensures { with_lists (status_number result number.new) out.new work.new
        ≡ lists_returned (decode_leaves k n positions.now values.now out.old work.old) }
{
    tell(block::decode(k, n, positions, values, out, work), number)
}
