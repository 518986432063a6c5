// The coefficients of M, the product of X - z over the missing points z, in the first N of 4N cells. No entry points and for this crate alone:
// `prepare` has laid the points.
ghost use Rattle.std.specs.Prelude.{◌≡◌, ◌++◌, ◌-◌, ◌*◌, ◌<◌, ◌≤◌, length, take, drop, replicate};
ghost use Rattle.field.specs.Size.{level_of, size_of};
ghost use Rattle.field.specs.Symbol.{Symbols};
ghost use Rattle.poly.specs.Products.{vanishing};
ghost use Rattle.lists.specs.Part.{part};

use cells::clear;
use decode_product::multiply_out;

// The points stand at the end of the first N cells, and zeros before them. A power of two of numbers is multiplied out, some of the zeros with
// the points: these only move the coefficients up.
fn multiply_points(size: usize, missing: usize, cells: &mut [u32])
    requires sizes { (length cells.old ≡ 4 * size) × (size ≡ size_of size) × (level_of size < 16) × (0 < missing)
        × (missing ≤ size) }
    requires points { (take (size - missing) cells.old ≡ replicate (size - missing) 0)
        × Symbols (part (size - missing) missing cells.old) }
    ensures coefficients { part (size - missing) missing cells.new
        ≡ take missing (vanishing (part (size - missing) missing cells.old)) }
    ensures rest { drop (2 * size) cells.new ≡ drop (2 * size) cells.old }
{
    let span = field::size(missing);
    multiply_out(&mut cells[size - span..size + span]);
}

// M's coefficients in front, and zeros behind them.
pub fn lay_product(size: usize, missing: usize, cells: &mut [u32])
    requires sizes { (length cells.old ≡ 4 * size) × (size ≡ size_of size) × (level_of size < 16) × (0 < missing)
        × (missing < size) }
    requires points { (take (size - missing) cells.old ≡ replicate (size - missing) 0)
        × Symbols (part (size - missing) missing cells.old) }
    ensures coefficients { take size cells.new
        ≡ vanishing (part (size - missing) missing cells.old) ++ replicate (size - missing - 1) 0 }
    ensures rest { drop (2 * size) cells.new ≡ drop (2 * size) cells.old }
{
    multiply_points(size, missing, cells);
    cells.copy_within(size - missing..size, 0);
    clear(&mut cells[missing..size]);
    cells[missing] = 1;
}
