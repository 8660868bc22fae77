// The entries of the index, counted and written: one for each outermost item of a fold that was read before.
ghost use Rattle.std.specs.Prelude.{◌≡◌, ◌++◌, ◌≤◌, length, drop};
ghost use Rattle.index.specs.Index.{index_of};

use crate::pass::{Spot, pass_item};
use crate::read::ReadFold;

// How many there are.
pub fn count_entries(fold: &ReadFold) -> usize
    ensures { result ≡ length (index_of fold.now.bytes.now).offsets }
{
    let s = fold.bytes;
    let mut p = Spot { at: 0, nodes: 0 };
    let mut i = 0;
    // Stays: each item says where the next one starts, which no range or iterator steps over.
    while p.at < s.len() {
        p = pass_item(s, p);
        i += 1;
    }
    i
}

// Writes them, so many, in front of both slices.
pub fn write_entries(fold: &ReadFold, entries: usize, offsets: &mut [u32], before: &mut [u32])
    requires all { entries ≡ length (index_of fold.now.bytes.now).offsets }
    requires room { (entries ≤ length offsets.old) × (entries ≤ length before.old) }
    ensures offsets_after { offsets.new ≡ (index_of fold.now.bytes.now).offsets ++ drop (length (index_of fold.now.bytes.now).offsets) offsets.old }
    ensures before_after { before.new ≡ (index_of fold.now.bytes.now).before ++ drop (length (index_of fold.now.bytes.now).before) before.old }
{
    let s = fold.bytes;
    let mut p = Spot { at: 0, nodes: 0 };
    for i in 0..entries {
        let next = pass_item(s, p);
        offsets[i] = p.at as u32;
        before[i] = p.nodes as u32;
        p = next;
    }
}
