// What every sequence is worked in, one after the other.
use solver::Rows;
use table::Siblings;

// The lists of a sequence's siblings, and those that its rows are worked in.
#[derive(Drop)]
pub struct Scratch {
    pub siblings: Siblings,
    pub rows: Rows,
}
