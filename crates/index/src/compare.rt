// Lent slices compared with the index of a fold that was read before.
ghost use Rattle.std.specs.Prelude.{◌≡◌};
ghost use Rattle.index.specs.Index.{index_of, is_index};

use crate::pass::{Spot, pass_item};
use crate::read::ReadFold;

// Whether both slices hold the entries of the index and nothing else.
pub fn is_index(fold: &ReadFold, offsets: &[u32], before: &[u32]) -> bool
    ensures { result ≡ is_index (index_of fold.now.bytes.now) offsets.now before.now }
{
    let s = fold.bytes;
    let mut p = Spot { at: 0, nodes: 0 };
    for (offset, nodes) in offsets.iter().zip(before) {
        if p.at == s.len() || *offset as usize != p.at || *nodes as usize != p.nodes {
            return false;
        }
        p = pass_item(s, p);
    }
    offsets.len() == before.len() && p.at == s.len()
}
