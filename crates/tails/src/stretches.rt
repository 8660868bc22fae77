// The stretches that begin at one step: the key of each is the least of the plain step's and of those of the repeats that may
// stand first.
ghost use Rattle.std.specs.Prelude.{◌≡◌, ◌+◌, ◌*◌, ◌≤◌, ◌<◌, length};
ghost use Rattle.blocks.specs.Keys.{block, pair_base, slot, both_in, pair_in};
ghost use Rattle.tails.specs.Tops.{top_rate};
ghost use Rattle.tails.specs.Solving.{Offered, WidthOffered, OwnCost};
ghost use Rattle.tails.specs.Given.{Ready, StretchKey, StretchesDone};

use crate::given::Row;
use crate::rates::repeat_cost;
use blocks::{Key, key_at, lesser, pair_of, put_key, slot};

// The least of a key and of those of the repeats of width w that stand first in the stretch of d steps and cover no more than
// `reach` of them.
fn offer(work: &[u32], row: &Row, d: usize, w: usize, reach: usize, best: Key) -> Key
    requires d_in_bounds { (block * (row.now.i + d + 1) ≤ length work.now) × (row.now.i + d < 65536) × (d ≤ 32) }
    requires w_nonzero { (0 < w) × (2 * w ≤ d) × (reach ≤ d) × (best.pair < pair_base) }
    ensures { Offered work.now row.now.rates row.now.i d w reach best result }
{
    let body = key_at(work, slot(row.i, w)).both;
    let mut least = best;
    let mut price = row.rates.first;
    let mut count = 2;
    let mut cover = w + w;
    // Stays: over a range, with a quotient for its end or left where a count covers too much, a run of one label takes 1.4 times as long.
    while cover <= reach {
        let rest = key_at(work, slot(row.i + cover, d - cover));
        let both = repeat_cost(price, body, rest.both);
        let pair = pair_of(count, w);
        least = lesser(least, Key { both, pair });
        price += row.rates.each;
        count += 1;
        cover += w;
    }
    least
}

// The same for all counts of width w that the matches allow.
fn offer_width(work: &[u32], row: &Row, d: usize, w: usize, best: Key) -> Key
    requires d_in_bounds { (block * (row.now.i + d + 1) ≤ length work.now) × (row.now.i + d < 65536) × (d ≤ 32) }
    requires w_nonzero { (0 < w) × (2 * w ≤ d) × (best.pair < pair_base) }
    ensures { WidthOffered work.now row.now.matches.now row.now.rates row.now.i d w best result }
{
    let span = row.matches[w] as usize;
    if span < w {
        return best;
    }
    offer(work, row, d, w, d.min(span + w), best)
}

// The key of the stretch of d steps.
#[tactic(auto, using(crate::proofs::Offers::stretched_all))]
fn stretch_key(work: &[u32], row: &Row, d: usize) -> Key
    requires d_in_bounds { (block * (row.now.i + d + 1) ≤ length work.now) × (row.now.i + d < 65536) × (0 < d) × (d ≤ 32) × (row.now.own ≤ top_rate) }
    ensures { StretchKey row.now work.now d 33 result }
{
    let next = key_at(work, slot(row.i + 1, d - 1));
    let mut best = Key {
        both: row.own + next.both,
        pair: 0,
    };
    for w in 1..d / 2 + 1 {
        best = offer_width(work, row, d, w, best);
    }
    best
}

// Puts the keys of the stretches, of as many steps as the limit allows and the run has. That of no steps stands already.
pub fn put_stretches(work: &mut [u32], row: &Row)
    requires own_cost { (z : Ready row.now work.old) × OwnCost z row.now.own }
    requires i_value { (both_in work.old (slot row.now.i 0) ≡ 0) × (pair_in work.old (slot row.now.i 0) ≡ 0) }
    ensures { StretchesDone row.now 33 work.old work.new }
{
    let m = row.limit.min(row.n - row.i);
    for d in 1..m + 1 {
        let key = stretch_key(work, row, d);
        put_key(work, slot(row.i, d), key);
    }
}
