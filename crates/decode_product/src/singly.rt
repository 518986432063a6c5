// A few points, multiplied out one factor at a time. No entry points and for this crate alone: its caller has tested how many there are.
ghost use Rattle.std.specs.Prelude.{◌≡◌, ◌/◌, length, take};
ghost use Rattle.field.specs.Symbol.{Symbols};
ghost use Rattle.poly.specs.Raised.{raised};
ghost use Rattle.decode_product.specs.Factors.{lowers_of};
ghost use Rattle.decode_product.specs.Halves.{SymbolsInFront};

use cells::copy;
use field::{difference, product};

// (X - x) · L in place of L, without the highest coefficient, which is L's.
fn raise(cells: &mut [u32], x: u32)
    requires { Symbols cells.old }
    ensures { cells.new ≡ take (length cells.old) (raised x 0 cells.old) }
{
    let mut passed: u32 = 0;
    for cell in cells.iter_mut() {
        let here = *cell;
        *cell = difference(passed, product(x, here));
        passed = here;
    }
}

// In the room, from the last point down; the 1 written before a step is the highest coefficient.
pub fn multiply_few(cells: &mut [u32])
    requires { SymbolsInFront cells.old }
    ensures { take (length cells.old / 2) cells.new
        ≡ lowers_of (take (length cells.old / 2) cells.old) }
{
    let half = cells.len() / 2;
    let (points, room) = cells.split_at_mut(half);
    for (count, x) in points.iter().rev().enumerate() {
        room[count] = 1;
        raise(&mut room[0..count + 1], *x);
    }
    copy(room, points);
}
