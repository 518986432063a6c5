// One block: its code word from the message, and the message from any k or more symbols of the code word.
#![tactic(auto)]

mod calls;
mod checks;
pub mod inner;
mod rooms;

pub use calls::{decode, encode};
