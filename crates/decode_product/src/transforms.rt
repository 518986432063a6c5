// Two long products, multiplied by their values at the roots. No entry points and for this crate alone: they ask for two lists in the halves of
// the cells.
ghost use Rattle.std.specs.Prelude.{◌≡◌, ◌/◌, length, get_or, take};
ghost use Rattle.field.specs.Field.{product};
ghost use Rattle.lists.specs.Tab.{tab};
ghost use Rattle.transform_halving.specs.Transform.{transform_of};
ghost use Rattle.decode_product.specs.Factors.{monic_times, padded_monic};
ghost use Rattle.decode_product.specs.Halves.{SymbolsInFront, TwoFactors, first_factor, second_factor};

use cells::clear;
use field::{difference, product};
use transform_halving::{inverse, transform};

// The list in the front half, its highest coefficient 1 behind it and zeros up to the end, transformed.
fn transform_whole(cells: &mut [u32])
    requires { SymbolsInFront cells.old }
    ensures { cells.new
        ≡ transform_of (padded_monic (take (length cells.old / 2) cells.old)) }
{
    let half = cells.len() / 2;
    clear(&mut cells[half..]);
    cells[half] = 1;
    transform(cells);
}

fn multiply_values(list: &mut [u32], factors: &[u32])
    requires { length list.old ≡ length factors.now }
    ensures { list.new ≡ tab (length list.old) (λ i. product (get_or list.old i 0) (get_or factors.now i 0)) }
{
    for (i, value) in list.iter_mut().enumerate() {
        *value = product(*value, factors[i]);
    }
}

// The highest power of X is 1 at each of the roots, so that the highest coefficient comes back as a 1 too much in the lowest.
pub fn multiply(cells: &mut [u32])
    requires { TwoFactors cells.old }
    ensures { take (length cells.old / 2) cells.new
        ≡ monic_times (first_factor cells.old) (second_factor cells.old) }
{
    let half = cells.len() / 2;
    let (front, back) = cells.split_at_mut(half);
    transform_whole(front);
    transform_whole(back);
    multiply_values(front, back);
    inverse(front);
    front[0] = difference(front[0], 1);
}
