// The keys of one row: where they come from before any repeat is offered, and what a solved stretch does to those of longer ones.
ghost use Rattle.std.specs.Prelude.{◌≡◌, ◌+◌, ◌<◌, ◌≤◌, length, get_or};
ghost use Rattle.table.specs.Keys.{combined_digits, top_key};
ghost use Rattle.table.specs.Table.{Held};
ghost use Rattle.solver.specs.Rows.{RowFits, RowRead, KeysReady, PricesReady, TailsReady, Copied, Plainly, Offering, Pushing, offer_key, behind_key};

use crate::row::Row;
use table::{Lists, combined_of, key_at, key_of, pair_of, rest_key};

// What the rows of the siblings behind have left for a row: the entries of their stretches, and what each adds as a tail.
#[derive(Clone, Copy)]
pub struct Solved<'a> {
    pub costs: &'a [u32],
    pub choices: &'a [u32],
    pub numbers: &'a [usize],
    pub tails: &'a [u64],
}

// Takes over the keys of the row that serves as far as siblings match.
pub fn copy_row(solved: &Solved, row: Row, keys: &mut [u64])
    requires row_read { RowRead solved.now.costs.now solved.now.choices.now solved.now.numbers.now row }
    requires row_fits { RowFits row × KeysReady keys.old }
    ensures { Copied solved.now.costs.now solved.now.choices.now solved.now.numbers.now (row.at + row.shift) row.span keys.old keys.new }
{
    let j = row.at + row.shift;
    let q = solved.numbers[j];
    for d in 1..row.span + 1 {
        keys[d] = key_at(solved.costs, solved.choices, solved.numbers, q, j + d);
    }
}

// The plain node with what follows it, for the stretches of `from` and more siblings.
pub fn plain_row(solved: &Solved, row: Row, from: usize, keys: &mut [u64])
    requires row_read { RowRead solved.now.costs.now solved.now.choices.now solved.now.numbers.now row }
    requires row_fits { RowFits row × KeysReady keys.old × (2 ≤ from) × (from ≤ 1025) }
    ensures { Plainly solved.now.costs.now solved.now.choices.now solved.now.numbers.now row from keys.old keys.new }
{
    let q = solved.numbers[row.at + 1];
    let plain = key_of(row.own, 0);
    for d in from..row.extent + 1 {
        keys[d] = plain + rest_key(solved.costs, solved.choices, solved.numbers, q, row.at + d);
    }
}

// What the stretch from sibling i on, of number q, up to sibling j adds to the key of an item that it follows. Up to the end of the
// sequence that is the tail: the entries of such stretches are far apart in memory, and the tails are not.
fn behind(solved: &Solved, end: usize, q: usize, i: usize, j: usize) -> u64
    requires held { Held solved.now.numbers.now q j (length solved.now.costs.now) × Held solved.now.numbers.now q j (length solved.now.choices.now) }
    requires i_in_bounds { (i < length solved.now.tails.now) × (q ≡ get_or solved.now.numbers.now i 0) }
    ensures { result ≡ behind_key solved.now.costs.now solved.now.choices.now solved.now.numbers.now solved.now.tails.now end i j }
{
    if j == end {
        solved.tails[i]
    } else {
        rest_key(solved.costs, solved.choices, solved.numbers, q, j)
    }
}

// Offers the repeat that covers c siblings at the key k, what follows it added, to the stretches of `from` and more siblings.
pub fn push(solved: &Solved, row: Row, c: usize, k: u64, from: usize, keys: &mut [u64])
    requires row_read { RowRead solved.now.costs.now solved.now.choices.now solved.now.numbers.now row }
    requires row_fits { RowFits row × KeysReady keys.old × (c ≤ row.extent) × (k ≤ top_key) × (c < from) × (from ≤ 1025) × (0 < c) × TailsReady solved.now.tails.now }
    ensures { Pushing solved.now.costs.now solved.now.choices.now solved.now.numbers.now solved.now.tails.now row c k from keys.old keys.new }
{
    let i = row.at + c;
    let q = solved.numbers[i];
    for d in from..row.extent + 1 {
        let rest = behind(solved, row.end, q, i, row.at + d);
        keys[d] = keys[d].min(k + rest);
    }
}

// The key of the repeat of count h and width d by itself, whose body has `body` for cost and repeats, combined: it is one repeat more.
pub fn offer_key(prices: &[u64], body: u64, d: usize, h: usize) -> u64
    requires { PricesReady prices.now × (body ≤ combined_digits top_key) × (d ≤ 1024) × (h ≤ 1024) }
    ensures { result ≡ offer_key prices.now body d h }
{
    let both = body + combined_of(prices[h], 1);
    key_of(both, pair_of(h, d))
}

// Offers the repeats of width d, whose body has `body` for cost and repeats, combined, and of which `span` siblings match the one d
// further, at the covers that they have, from the count `from` on.
pub fn offer(prices: &[u64], body: u64, d: usize, span: usize, from: usize, keys: &mut [u64])
    requires prices_ready { PricesReady prices.now × KeysReady keys.old }
    requires body_bound { (body ≤ combined_digits top_key) × (0 < d) × (span + d ≤ 1024) × (2 ≤ from) × (from ≤ 1025) }
    ensures { Offering prices.now body d span from keys.old keys.new }
{
    for h in from..Lists::LENGTH {
        if span < (h - 1) * d {
            break;
        }
        let c = h * d;
        let k = offer_key(prices, body, d, h);
        keys[c] = keys[c].min(k);
    }
}
