// The refusals: the example of every refusal in docs/REFUSALS.md but 18 to 21, by every entry point that it concerns. What is
// printed calls each a row: a row of the table there. Those of marks, of the short family and of seasons are the crates marked,
// short and seasons, which use what is public here.
#![tactic(auto)]

mod bytes;
mod entries;
mod finding;
mod lent;
mod lines;

pub use bytes::commands;
pub use entries::{FILLED, Index, still_filled};
pub use finding::positions;
pub use lent::{room, settings};
pub use lines::{by_fold_reader, by_reader_and_folder, example, row, told};
