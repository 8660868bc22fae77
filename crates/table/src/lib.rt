// The table that folding fills: one entry for each stretch of siblings, in lent slices, and the listings of a run's nodes and of a
// sequence's siblings that say which entry is whose.
#![tactic(auto)]

mod keys;
mod listing;
mod nodes;
mod triangle;

use format::Format;
pub use keys::{
    Key, combined_digits, combined_of, count_digit, covered, key_at, key_of, pair_digits, pair_of,
    rest_key, rest_of, width_digit,
};
pub use listing::Siblings;
pub use nodes::{Nodes, Span};
pub use triangle::{clear, entries, entry, store_entry, store_row};

// The lists that a sequence is worked in: a place for each of its siblings and one behind the last.
#[derive(Clone, Copy)]
pub struct Lists {}

impl Lists {
    pub const LENGTH: usize = Format::NODES + 1;
}
