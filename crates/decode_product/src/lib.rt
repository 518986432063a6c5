// No entry points: the product of X - z over a list of points, in its place, for the crates above, whose list is good. The products over the
// halves of the list are multiplied, in one way where they are short and in another where they are long, so that few products are reduced.
#![tactic(auto)]

mod singly;
mod sums;
mod transforms;

ghost use Rattle.std.specs.Prelude.{◌≡◌, ◌/◌, length, take};
ghost use Rattle.decode_product.specs.Factors.{lowers_of, monic_times};
ghost use Rattle.decode_product.specs.Halves.{SymbolsInFront, TwoFactors, first_factor, second_factor};

use crate::singly::multiply_few;

// Up to so many points one factor at a time takes fewer instructions than halves that are multiplied.
const FEW: usize = 8;

// From this length on three transforms of twice as many numbers take fewer instructions than as many products as its square.
const LONG: usize = 512;

fn multiply(cells: &mut [u32])
    requires { TwoFactors cells.old }
    ensures { take (length cells.old / 2) cells.new
        ≡ monic_times (first_factor cells.old) (second_factor cells.old) }
{
    if cells.len() / 4 < LONG {
        crate::sums::multiply(cells);
    } else {
        crate::transforms::multiply(cells);
    }
}

// The product over S points that stand at the front of 2S cells, in their place: its S coefficients below the highest. The other S cells are room.
pub fn multiply_out(cells: &mut [u32])
    requires { SymbolsInFront cells.old }
    ensures { take (length cells.old / 2) cells.new
        ≡ lowers_of (take (length cells.old / 2) cells.old) }
{
    let half = cells.len() / 2;
    if half <= FEW {
        multiply_few(cells);
        return;
    }
    cells.copy_within(half / 2..half, half);
    let (front, back) = cells.split_at_mut(half);
    multiply_out(front);
    multiply_out(back);
    multiply(cells);
}
