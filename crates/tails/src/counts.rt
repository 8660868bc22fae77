// The best count at each width from one step on, and the tail: all steps from there to the end. What copies beyond the first two
// cost, with the tail behind them, is known one copy further on, so no loop goes over the counts.
ghost use Rattle.std.specs.Prelude.{ℕ, ◌+◌, ◌*◌, ◌≤◌, ◌<◌, length};
ghost use Rattle.blocks.specs.Keys.{block, pair_base, slot, count_slot, pair_in};
ghost use Rattle.tails.specs.Tops.{top_rate};
ghost use Rattle.tails.specs.Solving.{Counted, Twice, TailOffered};
ghost use Rattle.tails.specs.Given.{Ready, CountDone, CountsDone, TailKey};

use crate::given::Row;
use crate::rates::repeat_cost;
use blocks::{Block, Key, key_at, lesser, pair_of, put_key, slot};

// The key of the best count at width w, where `span` steps match.
fn count_key(work: &[u32], row: &Row, w: usize, span: usize) -> Key
    requires span_in_bounds { (block * (row.now.i + w + span + 1) ≤ length work.now) × (row.now.i + w + span < 65536) × (w ≤ span) × (w ≤ 32) }
    requires w_bound { 2 * w ≤ span → pair_in work.now (slot (row.now.i + w) (count_slot w)) + 64 < pair_base }
    ensures { Counted work.now row.now.rates row.now.i w span result }
{
    let tail = key_at(work, slot(row.i + 2 * w, Block::TAIL));
    let two = Key {
        both: tail.both,
        pair: pair_of(2, w),
    };
    if span < 2 * w {
        return two;
    }
    let more = key_at(work, slot(row.i + w, Block::TAIL + w));
    let longer = Key {
        both: more.both + row.rates.each,
        pair: more.pair + Block::WIDTHS,
    };
    lesser(two, longer)
}

// Puts the key of the best count at width w where there are two copies of it.
fn put_count(work: &mut [u32], row: &Row, w: usize)
    requires w_nonzero { (0 < w) × (w ≤ row.now.limit) }
    requires row_ready { Ready row.now work.old }
    ensures { CountDone row.now w work.old work.new }
{
    let span = row.matches[w] as usize;
    if span < w {
        return;
    }
    let key = count_key(work, row, w, span);
    put_key(work, slot(row.i, Block::TAIL + w), key);
}

// The same at each width within the limit.
pub fn put_counts(work: &mut [u32], row: &Row)
    requires { Ready row.now work.old }
    ensures { CountsDone row.now (row.now.limit + 1) work.old work.new }
{
    for w in 1..row.limit + 1 {
        put_count(work, row, w);
    }
}

// The lesser of a key and of that of the best count at width w, with its body, where there are two copies of it.
fn tail_width(work: &[u32], row: &Row, w: usize, best: Key) -> Key
    requires i_in_bounds { (block * (row.now.i + 1) ≤ length work.now) × (row.now.i < 65535) × (0 < w) × (w ≤ 32) }
    requires pair_lt_pair_base { (best.pair < pair_base) × (Twice row.now.matches.now w → pair_in work.now (slot row.now.i (count_slot w)) < pair_base) }
    ensures { TailOffered work.now row.now.matches.now row.now.rates row.now.i w best result }
{
    if (row.matches[w] as usize) < w {
        return best;
    }
    let count = key_at(work, slot(row.i, Block::TAIL + w));
    let body = key_at(work, slot(row.i, w));
    let both = repeat_cost(row.rates.first, body.both, count.both);
    lesser(
        best,
        Key {
            both,
            pair: count.pair,
        },
    )
}

// The key of the tail.
#[tactic(auto, using(crate::proofs::Offers::tailed_all))]
pub fn tail_key(work: &[u32], row: &Row) -> Key
    requires i_in_bounds { (block * (row.now.i + 2) ≤ length work.now) × (row.now.i < 65535) × (row.now.limit ≤ 32) × (row.now.own ≤ top_rate) }
    requires by_index { (w : ℕ) → w ≤ row.now.limit → Twice row.now.matches.now w → pair_in work.now (slot row.now.i (count_slot w)) < pair_base }
    ensures { TailKey row.now work.now (row.now.limit + 1) result }
{
    let next = key_at(work, slot(row.i + 1, Block::TAIL));
    let mut best = Key {
        both: row.own + next.both,
        pair: 0,
    };
    for w in 1..row.limit + 1 {
        best = tail_width(work, row, w, best);
    }
    best
}
