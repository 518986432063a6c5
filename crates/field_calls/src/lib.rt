// The field's entry points: the operations, and the point that a position stands for.
#![tactic(auto)]

mod operations;
mod points;

pub use operations::{difference, inverse, power, product, sum};
pub use points::point_at;
