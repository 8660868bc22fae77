// Solving one row of the table: the cheapest folds of the stretches that begin at one sibling, as far as a fold can use them.
#![tactic(auto)]

mod ends;
mod keys;
mod matches;
mod pairs;
mod row;
mod rows;

pub use matches::{Source, draw, grow};
pub use row::{Row, enter_row};
pub use rows::Rows;
