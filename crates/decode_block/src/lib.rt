// No entry points: the message that fits all held symbols, or that none does, by division by the product over the missing points, where positions
// and values are lent as lists of their own, as decode has them. The caller has made the checks.
#![tactic(auto)]

ghost use Rattle.std.specs.Prelude.{◌≡◌, cond, ◌≤◌, length, take};
ghost use Rattle.std.proofs.Math.Option.{some, none};
ghost use Rattle.answers.specs.Leaves.{leaving};
ghost use Rattle.answers.specs.Refusals.{told_outcome};
ghost use Rattle.code.specs.Decoded.{decoded};
ghost use Rattle.code.specs.Decoding.{decode_of};
ghost use Rattle.code.specs.Held.{held};
ghost use Rattle.code.specs.Meeting.{message_of};
ghost use Rattle.code.specs.Positions.{Inside};
ghost use Rattle.code.specs.Decodable.{Decodable};
ghost use Rattle.code.specs.Repeats.{Apart};
ghost use Rattle.code.specs.Rooms.{decode_work};
ghost use Rattle.decode_missing.specs.Marks.{Marks};
ghost use Rattle.decode_block.specs.Multiplied.{Multiplied};

use answers::Refusal;
use cells::{clear, copy};
use decode_prepare::prepare;
use field::{product, size};

// A mark at each held position, and 0 at the others.
fn mark_positions(positions: &[u32], marks: &mut [u32])
    requires { Inside (length marks.old) positions.now }
    ensures { Marks (length marks.old) positions.now marks.new }
{
    clear(marks);
    for position in positions {
        marks[*position as usize] = 1;
    }
}

// Each held value, times the number that stands at its position, in its place.
fn multiply_in(positions: &[u32], values: &[u32], list: &mut [u32])
    requires { (length positions.now ≡ length values.now) × Inside (length list.old) positions.now
        × Apart positions.now }
    ensures { Multiplied (length positions.now) positions.now values.now
        list.old list.new }
{
    for (position, value) in positions.iter().zip(values) {
        let at = *position as usize;
        list[at] = product(*value, list[at]);
    }
}

// Whether a message fits, which then stands at the front of the stated working space.
fn find_message(k: usize, n: usize, positions: &[u32], values: &[u32], cells: &mut [u32]) -> bool
    requires { Decodable k n (held positions.now values.now) × (length cells.old ≡ decode_work n) }
    ensures { decode_of k n (held positions.now values.now)
        ≡ cond result (some (message_of (take k cells.new))) none }
{
    let size = size(n);
    mark_positions(positions, &mut cells[2 * size..3 * size]);
    let missing = prepare(k, n, cells);
    multiply_in(positions, values, &mut cells[0..size]);
    decode_divide::divide(k, n, missing, cells)
}

// The message that fits at the output's front, or DISAGREE.
pub fn recover(
    k: usize,
    n: usize,
    positions: &[u32],
    values: &[u32],
    out: &mut [u32],
    cells: &mut [u32],
) -> Result<(), Refusal>
    requires { Decodable k n (held positions.now values.now) × (k ≤ length out.old)
        × (length cells.old ≡ decode_work n) }
    ensures { leaving (told_outcome result) out.new cells.new
        ≡ decoded (decode_of k n (held positions.now values.now)) n out.old cells.old }
{
    if find_message(k, n, positions, values, cells) {
        copy(&cells[0..k], out);
        clear(cells);
        return Ok(());
    }
    clear(cells);
    Err(Refusal::Disagree(0))
}
