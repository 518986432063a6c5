// No entry points: the blocks of a bundle that the checks have passed, read to the bytes of its file, for the crates above.
#![tactic(auto)]

mod blocks;
mod bytes;

pub use blocks::read_blocks;
