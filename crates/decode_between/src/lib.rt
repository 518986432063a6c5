// No entry points: the values of a polynomial at the K points between those of the code word, where it can be divided by what vanishes at points
// of the code word. Of 4N cells the first N hold the coefficients, the next N are room, which the values go to, and the last N hold the powers of ψ.
#![tactic(auto)]

ghost use Rattle.std.specs.Prelude.{◌≡◌, ◌<◌, length, take};
ghost use Rattle.field.specs.Symbol.{IsSymbol};
ghost use Rattle.lists.specs.Part.{replaced};
ghost use Rattle.decode_between.specs.Between.{values_between, folded_at, folded};
ghost use Rattle.decode_between.specs.Foldable.{Columns, Foldable};

use transform_table::{Turns, transform_by};

// The coefficients whose indices are i modulo K, each times its power of ψ, added up in 64 bits and reduced once.
fn fold_one(step: usize, i: usize, coefficients: &[u32], powers: &[u32]) -> u32
    requires { Columns step coefficients.now powers.now × (i < step) }
    ensures { IsSymbol result (folded_at (length coefficients.now) step coefficients.now i) }
{
    let mut sum: u64 = 0;
    for b in 0..coefficients.len() / step {
        let at = b * step + i;
        sum += u64::from(coefficients[at]) * u64::from(powers[at]);
    }
    (sum % 65537) as u32
}

fn fold(size: usize, step: usize, cells: &mut [u32])
    requires { Foldable size step cells.old }
    ensures { cells.new
        ≡ replaced size step cells.old (folded size step (take size cells.old)) }
{
    let (front, powers) = cells.split_at_mut(3 * size);
    let (coefficients, room) = front.split_at_mut(size);
    for (i, value) in room[0..step].iter_mut().enumerate() {
        *value = fold_one(step, i, coefficients, powers);
    }
}

// The values at the K points between, by one transform of K.
pub fn values_between(size: usize, step: usize, cells: &mut [u32])
    requires { Foldable size step cells.old }
    ensures { cells.new
        ≡ replaced size step cells.old (values_between size step (take size cells.old)) }
{
    fold(size, step, cells);
    let (front, table) = cells.split_at_mut(3 * size);
    let turns = Turns {
        table,
        step: 2 * size / step,
    };
    transform_by(&mut front[size..size + step], turns);
}
