// One block: the stretches from a step on, the best counts, and the tail.
ghost use Rattle.tails.specs.Solving.{OwnCost};
ghost use Rattle.tails.specs.Given.{Ready, Done};

use crate::counts::{put_counts, tail_key};
use crate::given::Row;
use crate::stretches::put_stretches;
use blocks::{Block, Key, put_key, slot};

// Solves the block of a step. The blocks behind it are solved.
pub fn solve(work: &mut [u32], row: &Row)
    requires { (z : Ready row.now work.old) × OwnCost z row.now.own }
    ensures { Done row.now work.old work.new }
{
    put_key(work, slot(row.i, 0), Key { both: 0, pair: 0 });
    put_stretches(work, row);
    put_counts(work, row);
    let tail = tail_key(work, row);
    put_key(work, slot(row.i, Block::TAIL), tail);
}
