// No entry points: the limits that several calls test alike, SHAPE of a block, ROOM and VALUE. They take any numbers and write nothing; VALUE is
// refused here, by `check_symbols`, and the others by the entry point.
#![tactic(auto)]

ghost use Rattle.std.specs.Prelude.{◌≡◌, ◌||◌, [], ltb};
ghost use Rattle.std.specs.List.{position};
ghost use Rattle.answers.specs.Refusals.{the_result, told_outcome};
ghost use Rattle.limits.specs.Shape.{bad_shape};
ghost use Rattle.limits.specs.Values.{refuse_above};

use answers::Refusal;

// What n may be at most.
pub const LONGEST: usize = 4096;

// Whether SHAPE refuses a block of k message symbols and n coded ones.
#[tactic(auto, unfolding(crate::specs::Shape::longest, crate::specs::Shape::bad_shape))]
pub fn bad_shape(k: usize, n: usize) -> bool
    ensures { result ≡ bad_shape k n }
{
    k == 0 || n < k || LONGEST < n
}

// Whether the output or the working space is shorter than stated.
pub fn too_short(out: usize, needed: usize, work: usize, room: usize) -> bool
    ensures { result ≡ ltb out needed || ltb work room }
{
    out < needed || work < room
}

// The index of the first value that is no symbol.
fn first_above(values: &[u32]) -> Option<usize>
    ensures { result ≡ position (ltb 65536) values.now }
{
    values.iter().position(|value| 65536 < *value)
}

// VALUE for a list.
#[tactic(auto, using(crate::proofs::Values::above_found, crate::proofs::Values::above_none))]
pub fn check_symbols(values: &[u32]) -> Result<(), Refusal>
    ensures { told_outcome result ≡ refuse_above values.now (the_result []) }
{
    match first_above(values) {
        Some(i) => Err(Refusal::Value(i)),
        None => Ok(()),
    }
}
