// No entry points: numbers in bytes, and how a body stores the symbols of its blocks, for the crates above. Those that read or write at an index
// ask that it lies inside. Another storage is another crate like this one.
#![tactic(auto)]

mod body;
mod bytes;

pub use body::{body_good, body_size, cursor_after, store, symbol_in, words_at};
pub use bytes::{four_at, known_as_bytes, put_four, put_two, two_at};
