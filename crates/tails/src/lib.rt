// Solving a season's blocks, from the end of the run to its first step: the stretches of up to 32 steps, the best count at each
// width, and the tails.
#![tactic(auto)]

mod counts;
mod given;
mod matches;
mod rates;
mod row;
mod run;
mod stretches;

pub use rates::Rates;
pub use run::{FlatSeason, fill};
