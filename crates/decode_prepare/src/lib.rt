// No entry points: what decoding works out of the positions alone, before it looks at a value, in 4N cells, of which the third N hold a mark for
// each position that is held. It leaves M(x) at the N points in the first N cells, 1 / (N·K·M) at the K points between in the third N, and the
// powers of ψ in the last.
#![tactic(auto)]

mod vanishing;

ghost use Rattle.std.specs.Prelude.{◌≡◌, false, ◌++◌, ◌+◌, ◌-◌, ◌*◌, ◌<◌, ◌≤◌, length, get_or, take, drop, replicate};
ghost use Rattle.field.specs.Field.{power};
ghost use Rattle.limits.specs.Shape.{bad_shape};
ghost use Rattle.field.specs.Size.{level_of, size_of};
ghost use Rattle.lists.specs.Tab.{tab};
ghost use Rattle.transform_halving.specs.Transform.{transform_of};
ghost use Rattle.lists.specs.Part.{replaced};
ghost use Rattle.decode_between.specs.Between.{psi, values_between};
ghost use Rattle.decode_between.specs.Foldable.{Foldable};
ghost use Rattle.decode_missing.specs.Missing.{missing_points};
ghost use Rattle.decode_prepare.specs.Prepared.{Prepared};
ghost use Rattle.decode_missing.specs.Marks.{marks_at};
ghost use Rattle.decode_prepare.specs.Inverted.{inverses_of};

use crate::vanishing::lay_product;
use cells::clear;
use decode_between::values_between;
use decode_missing::lay_missing;
use field::{inverse, level, product, root, size};
use transform_table::{Turns, lay_powers, transform_by};

// One over N·K times each of the K values in the second N cells, to the third.
fn invert(size: usize, step: usize, cells: &mut [u32])
    requires { (length cells.old ≡ 4 * size) × (step ≤ size) × (size ≤ 65536) }
    ensures { cells.new
        ≡ replaced (2 * size) step cells.old (inverses_of size step (λ i. get_or cells.old (size + i) 0)) }
{
    let factor = product(size as u32, step as u32);
    let (front, inverses) = cells.split_at_mut(2 * size);
    let values = &front[size..size + step];
    for (i, value) in values.iter().enumerate() {
        inverses[i] = inverse(product(factor, *value));
    }
}

// From M's coefficients in front: M at the points between, inverted, and then M at the N points, in front.
fn weigh(size: usize, step: usize, cells: &mut [u32])
    requires { Foldable size step cells.old }
    ensures values { take size cells.new ≡ transform_of (take size cells.old) }
    ensures inverses { take step (drop (2 * size) cells.new)
        ≡ inverses_of size step (λ i. get_or (values_between size step (take size cells.old)) i 0) }
    ensures rest { drop (3 * size) cells.new ≡ drop (3 * size) cells.old }
{
    values_between(size, step, cells);
    invert(size, step, cells);
    let (front, table) = cells.split_at_mut(3 * size);
    let turns = Turns { table, step: 2 };
    transform_by(&mut front[0..size], turns);
}

// The powers of ψ, and the missing points before the end of the first N cells; how many they are.
fn begin(size: usize, cells: &mut [u32]) -> usize
    requires { (length cells.old ≡ 4 * size) × (size ≡ size_of size) × (level_of size < 16) }
    ensures missing { result ≡ length (missing_points size (marks_at size cells.old)) }
    ensures points { take size cells.new
        ≡ replicate (size - result) 0 ++ missing_points size (marks_at size cells.old) }
    ensures powers { drop (3 * size) cells.new ≡ tab size (power (psi size)) }
{
    let twist = root(level(size) + 1);
    lay_powers(twist, &mut cells[3 * size..]);
    clear(&mut cells[0..2 * size]);
    lay_missing(size, cells)
}

// How many positions are missing. Where none is M is 1.
pub fn prepare(k: usize, n: usize, cells: &mut [u32]) -> usize
    requires { (bad_shape k n ≡ false) × (length cells.old ≡ 4 * size_of n)
        × (length (missing_points (size_of n) (marks_at (size_of n) cells.old)) < size_of n) }
    ensures { Prepared k n (marks_at (size_of n) cells.old) result cells.new }
{
    let step = size(k);
    let size = size(n);
    let missing = begin(size, cells);
    if missing == 0 {
        cells[0..size].fill(1);
        return 0;
    }
    lay_product(size, missing, cells);
    weigh(size, step, cells);
    missing
}
