// No entry points: what the writer and the reader ask for, for the crates above, so that each formula stands once.
// `write_out` asks for an n and a B within their limits.
pub use crate::rooms::{bundle_work, write_out};
