// A position is a place in the code word, a point a number of the field. They have types of their own, and point_of is the one function that leads
// from one to the other. No entry points: both functions take any number.
ghost use Rattle.std.specs.Prelude.{◌≡◌};
ghost use Rattle.field.specs.Points.{point_of};
ghost use Rattle.field.specs.Symbol.{IsSymbol};

use crate::arithmetic::power;
use crate::orders::{level, root};

#[derive(Clone, Copy)]
pub struct Position(pub usize);

#[derive(Clone, Copy)]
pub struct Point(pub u32);

// In lent lists a position stands as a bare number.
pub fn position_of(number: u32) -> Position
    ensures { result.0 ≡ number }
{
    Position(number as usize)
}

// The one way from a position to a point; size is N.
pub fn point_of(position: Position, size: usize) -> Point
    ensures { IsSymbol result.0 (point_of size position.0) }
{
    let i = position.0;
    Point(power(root(level(size)), i))
}
