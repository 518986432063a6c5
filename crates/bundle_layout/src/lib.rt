// The layout of a bundle: header, table and bodies, the tests that a bundle has to pass, and what its header and table say.
#![tactic(auto)]

mod checks;
mod facts;
pub mod inner;
mod layout;

pub use facts::{Entry, Facts, entry_of, facts_of};
