// All strings of commands in byte order, and all folds of a run among them: what the trial holds the folder's fold against. It
// asks nothing of the folder.
#![tactic(auto)]

mod command;
mod folds;
mod pool;
mod search;
mod trace;

pub use command::Command;
pub use folds::gather;
pub use pool::Fold;
pub use search::{Entry, Judgement, Next, Search, TURNS};
