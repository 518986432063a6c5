// No entry points: a file as blocks of words, what its shadows are, the code word of each block, and how many symbols of each shadow overflow. The
// callers have passed the checks of its length.
#![tactic(auto)]

mod counts;
mod source;
mod words;

pub use counts::{clear_counts, code_front, none_counted, tally};
pub use source::Source;
