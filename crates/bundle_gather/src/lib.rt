// No entry points: what a bundle whose layout is good holds for its blocks, gathered for the decoder: the working space before the first block, and
// with the values of a block.
#![tactic(auto)]

mod once;
mod symbols;

pub use once::start;
pub use symbols::gather;
