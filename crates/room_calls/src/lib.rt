// How much room each call asks for, told before the call.
#![tactic(auto)]

mod calls;
mod space;

pub use calls::{decode_room, encode_room, read_room, transform_room, write_room};
pub use space::Space;
