// Bundles: written from a file, and read back to the file.
#![tactic(auto)]

mod calls;
mod checks;
pub mod inner;
mod rooms;
mod whole;

pub use calls::{read, write};
