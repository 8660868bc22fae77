// What the programs that try the library share: the calls that look at every entry of the lent slices, and whether a fold is read
// as its run is.
#![tactic(auto)]

mod lent;
mod reading;

pub use lent::{
    Checked, begins, cleared, fill_bytes, fill_words, fold_checked, unrolled, unrolls, untouched,
};
pub use reading::alike;
