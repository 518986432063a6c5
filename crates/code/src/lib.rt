// No entry points: the code of one block, what a code word is and what fits held symbols, and the work of encode on input that the checks have
// passed.
#![tactic(auto)]

ghost use Rattle.std.specs.Prelude.{◌≡◌, ◌++◌, ◌-◌, ◌≤◌, length, replicate};
ghost use Rattle.answers.specs.Leaves.{written};
ghost use Rattle.code.specs.Code.{code_word};
ghost use Rattle.code.specs.Codable.{Codable};
ghost use Rattle.code.specs.Rooms.{encode_work};

use cells::{clear, copy};
use field::size;
use transform_halving::transform;

// The message as the first of N coefficients, the others 0.
fn lay(message: &[u32], cells: &mut [u32])
    requires { length message.now ≤ length cells.old }
    ensures { cells.new
        ≡ message.now ++ replicate (length cells.old - length message.now) 0 }
{
    copy(message, cells);
    clear(&mut cells[message.len()..]);
}

// The code word by one transform; cells is the stated working space.
pub fn spread(n: usize, message: &[u32], out: &mut [u32], cells: &mut [u32])
    requires { Codable n message.now × (n ≤ length out.old) × (length cells.old ≡ encode_work n) }
    ensures out_after { out.new ≡ written (code_word n message.now) out.old }
    ensures cells_after { cells.new ≡ replicate (encode_work n) 0 }
{
    let size = size(n);
    lay(message, &mut cells[0..size]);
    transform(&mut cells[0..size]);
    copy(&cells[0..n], out);
    clear(cells);
}
