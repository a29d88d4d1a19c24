// A directory of records, each found by its key, in memory that the caller lends.
#![tactic(auto)]

mod directory;
mod keyed;

pub use directory::Directory;
pub use keyed::{Blank, Keyed, fetch, lookup};
