// All blocks of a run: that of the end, and then one step after the other, from the last to the first. Nothing depends on the
// run's length but the number of rounds.
ghost use Rattle.std.specs.Prelude.{◌≡◌, ◌+◌, ◌*◌, ◌≤◌, ◌<◌, length, get_or};
ghost use Rattle.blocks.specs.Keys.{block, factor};
ghost use Rattle.tails.specs.Tops.{top_rate};
ghost use Rattle.tails.specs.Solving.{EndPut, KeptPast};
ghost use Rattle.tails.specs.Given.{SeasonReady, SeasonFilled, SeasonMatching};

use crate::given::Row;
use crate::matches::grow;
use crate::rates::Rates;
use crate::row::solve;
use blocks::{Block, Key, put_key, slot};
use walk::price;

// A flat run of n steps, the width limit, the costs of steps, the labels that may stand in no repeat, and the prices of repeats.
#[derive(Clone, Copy)]
pub struct FlatSeason<'a> {
    pub run: &'a [u8],
    pub n: usize,
    pub limit: usize,
    pub steps: &'a [u16],
    pub marks: &'a [u8],
    pub rates: Rates,
}

// What step i costs by itself.
fn own_cost(season: &FlatSeason, i: usize) -> u64
    requires { (2 * i + 1 < length season.now.run.now) × (i < 65536) }
    ensures { (result ≡ get_or season.now.steps.now (get_or season.now.run.now (2 * i + 1) 0) 0 * factor) × (result ≤ top_rate) }
{
    price(season.steps, season.run[2 * i + 1]) * Block::REPEATS
}

// The block of the end, from which no step follows.
fn put_end(work: &mut [u32], n: usize)
    requires { (block * (n + 1) ≤ length work.old) × (n < 65536) }
    ensures { EndPut work.old n work.new }
{
    put_key(work, slot(n, 0), Key { both: 0, pair: 0 });
    put_key(work, slot(n, Block::TAIL), Key { both: 0, pair: 0 });
}

// The blocks of all steps. That of the end is put, and no step matches there.
fn fill_steps(season: &FlatSeason, matches: &mut [u16; Block::TAIL], work: &mut [u32])
    requires ready { SeasonReady season.now work.old }
    requires matching { SeasonMatching season.now matches.old season.now.n }
    requires filled { SeasonFilled season.now season.now.n work.old }
    ensures all_filled { SeasonFilled season.now 0 work.new }
    ensures kept_past { KeptPast (block * season.now.n) work.old work.new }
{
    for i in (0..season.n).rev() {
        grow(season.run, season.marks, season.limit, season.n, i, matches);
        let own = own_cost(season, i);
        let row = Row {
            rates: season.rates,
            matches,
            limit: season.limit,
            n: season.n,
            i,
            own,
        };
        solve(work, &row);
    }
}

// Fills the blocks of a season: all are solved, and no entry past them changes.
#[tactic(auto, using(crate::proofs::Fills::end_filled))]
pub fn fill(season: &FlatSeason, work: &mut [u32])
    requires { SeasonReady season.now work.old }
    ensures filled_from { SeasonFilled season.now 0 work.new }
    ensures kept_past { KeptPast (block * (season.now.n + 1)) work.old work.new }
{
    let mut matches = [0; Block::TAIL];
    put_end(work, season.n);
    fill_steps(season, &mut matches, work);
}
