// No entry points: the tests of a list of positions, POSITION and REPEAT, for the crate above. They write nothing.
#![tactic(auto)]

mod repeats;

ghost use Rattle.std.specs.Prelude.{◌≡◌, leb};
ghost use Rattle.std.specs.List.{position};

use field::position_of;
pub use repeats::first_repeat;

// The index of the first position that is n or more.
pub fn first_outside(n: usize, positions: &[u32]) -> Option<usize>
    ensures { result ≡ position (leb n) positions.now }
{
    positions
        .iter()
        .position(|number| n <= position_of(*number).0)
}
