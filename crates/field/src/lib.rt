// No entry points: numbers modulo 65537, the table of roots, positions and points. Sum and difference ask for symbols, and root for an index of
// the table; the others take any number, and it is the entry point that refuses.
#![tactic(auto)]

mod arithmetic;
mod orders;
mod points;

pub use arithmetic::{difference, inverse, power, product, sum};
pub use orders::{level, root, size};
pub use points::{Point, Position, point_of, position_of};
