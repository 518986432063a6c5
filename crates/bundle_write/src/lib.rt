// No entry points: how the bundle of a file is written, on input that the checks have passed, for the crate above.
#![tactic(auto)]

mod bodies;

pub use bodies::write_all;
