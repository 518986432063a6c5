// No entry points: the test of a list's length, passed on to the crate that tells callers what the transform asks for.
pub use crate::checks::bad_length;
