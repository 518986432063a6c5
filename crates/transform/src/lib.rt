// The transform of 1, 2, 4 up to 4,096 symbols, and its inverse: the entry points.
#![tactic(auto)]

mod calls;
mod checks;
pub mod inner;

pub use calls::{inverse, transform};
