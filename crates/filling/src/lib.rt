// Filling the table: every sequence of the run, the innermost groups first.
#![tactic(auto)]

mod level;
mod own;
mod scratch;
mod tables;

pub use level::{Level, enter_tree};
pub use scratch::Scratch;
pub use tables::Tables;
