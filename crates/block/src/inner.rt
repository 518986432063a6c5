// No entry points: what encode and decode ask for, passed on to the crate that tells it to callers, so that each formula stands once.
pub use crate::rooms::{decode_work, encode_work};
