// The season folder's work: blocks of slots in one lent slice, and the keys that stand in them.
#![tactic(auto)]

mod keys;

pub use keys::{Block, Key, key_at, lesser, pair_of, put_key, slot};
