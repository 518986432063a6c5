// The point that a position of a code word stands for: the caller's length and position are tested, and refused by SHAPE and POSITION.
ghost use Rattle.std.specs.Prelude.{◌≡◌};
ghost use Rattle.field_calls.specs.Points.{told_point, point_answer};

use answers::Refusal;
use field::{Point, Position};

// n is the length of the code word.
pub fn point_at(n: usize, position: Position) -> Result<Point, Refusal>
    ensures { told_point result ≡ point_answer n position.0 }
{
    if limits::bad_shape(1, n) {
        return Err(Refusal::Shape);
    }
    let size = field::size(n);
    let i = position.0;
    if n <= i {
        return Err(Refusal::Position(0));
    }
    Ok(field::point_of(position, size))
}
