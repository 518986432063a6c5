// No entry points: the positions of a code word that are not held, their points, and what division by the product over them has to do with the
// message that fits. Of 4N cells the third N hold a mark for each held position, and the missing points go to the end of the first N, which are 0
// before.
#![tactic(auto)]

ghost use Rattle.std.specs.Prelude.{◌≡◌, cond, ◌++◌, ◌-◌, ◌*◌, ◌<◌, ◌≤◌, eqb, length, take, drop, set, replicate};
ghost use Rattle.field.specs.Size.{size_of};
ghost use Rattle.decode_missing.specs.Missing.{missing_points};
ghost use Rattle.decode_missing.specs.Marks.{marks_at};

use field::{level, product, root};

// The point before the others, where its position has no mark; what is returned is where the points begin.
fn lay_point(points: &mut [u32], mark: u32, place: usize, point: u32) -> usize
    requires { (0 < place) × (place ≤ length points.old) }
    ensures place { result ≡ cond (eqb mark 0) (place - 1) place }
    ensures points { points.new
        ≡ cond (eqb mark 0) (set points.old (place - 1) point) points.old }
{
    if mark != 0 {
        return place;
    }
    let before = place - 1;
    points[before] = point;
    before
}

// The missing points, and how many they are.
pub fn lay_missing(size: usize, cells: &mut [u32]) -> usize
    requires { (length cells.old ≡ 4 * size) × (size ≡ size_of size) × (take size cells.old ≡ replicate size 0) }
    ensures missing { result ≡ length (missing_points size (marks_at size cells.old)) }
    ensures points { cells.new
        ≡ replicate (size - result) 0 ++ (missing_points size (marks_at size cells.old) ++ drop size cells.old) }
{
    let root = root(level(size));
    let (points, rest) = cells.split_at_mut(size);
    let marks = &rest[size..2 * size];
    let mut turn: u32 = 1;
    let mut place = size;
    for mark in marks {
        place = lay_point(points, *mark, place, turn);
        turn = product(turn, root);
    }
    size - place
}
