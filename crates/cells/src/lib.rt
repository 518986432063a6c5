// No entry points: what is done to lent lists whatever they hold. Clearing takes any, copying asks that there is room.
#![tactic(auto)]

ghost use Rattle.std.specs.Prelude.{◌≡◌, ◌≤◌, length, replicate};
ghost use Rattle.answers.specs.Leaves.{written};

// What lent memory is made of: numbers and bytes.
pub trait Cell: Copy {
    ghost zero: { Self };

    fn zero() -> Self
        ensures { result ≡ zero };
}

impl Cell for u32 {
    ghost zero = { 0 };

    fn zero() -> u32 {
        0
    }
}

impl Cell for u8 {
    ghost zero = { 0 };

    fn zero() -> u8 {
        0
    }
}

pub fn clear<T: Cell>(cells: &mut [T])
    ensures { cells.new ≡ replicate (length cells.old) T.zero }
{
    for at in 0..cells.len() {
        cells[at] = T::zero();
    }
}

// At the front of to, which stays as it was behind it.
pub fn copy<T: Copy>(from: &[T], to: &mut [T])
    requires { length from.now ≤ length to.old }
    ensures { to.new ≡ written from.now to.old }
{
    for (at, number) in from.iter().enumerate() {
        to[at] = *number;
    }
}
