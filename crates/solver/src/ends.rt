// The stretch from a row's sibling up to the sequence's end: the least of its candidates. A repeat that covers more than the row has
// solved is offered here alone, with the tail behind it.
ghost use Rattle.std.specs.Prelude.{◌≡◌, ◌⊎◌, ◌+◌, ◌<◌, ◌≤◌, ℕ, get_or};
ghost use Rattle.table.specs.Keys.{combined_digits, covered, top_key, stored_key};
ghost use Rattle.solver.specs.Rows.{RowFits, PricesReady, TailsReady};
ghost use Rattle.solver.specs.Ends.{Ending, EndOffered};

use crate::keys::offer_key;
use crate::row::{Row, count_past, matched_within};
use crate::rows::Rows;
use table::{Lists, combined_digits, covered, key_of};

// The lesser of a key and that of a solved stretch with the tail behind it, where the stretch is cheapest as one repeat.
fn followed(key: u64, d: usize, tail: u64, last: u64) -> u64
    requires { (key ≤ top_key) × (tail ≤ stored_key) }
    ensures { (result ≤ last) × (covered key ≡ d → result ≤ key + tail) × ((result ≡ last) ⊎ ((covered key ≡ d) × (result ≡ key + tail))) }
{
    if covered(key) == d {
        last.min(key + tail)
    } else {
        last
    }
}

// Offers the repeats of width d, whose body has `body` for cost and repeats, combined, and of which `span` siblings match: those that
// cover more than the row has solved.
fn offer_end(
    row: Row,
    prices: &[u64],
    tails: &[u64],
    body: u64,
    d: usize,
    span: usize,
    last: u64,
) -> u64
    requires row_fits { RowFits row × PricesReady prices.now × TailsReady tails.now × (body ≤ combined_digits top_key) }
    requires d_nonzero { (0 < d) × (d ≤ row.extent) × (row.at + d + span ≤ row.end) }
    ensures { EndOffered row prices.now tails.now body d span last result }
{
    let mut best = last;
    for h in count_past(d, row.extent)..Lists::LENGTH {
        if span < (h - 1) * d {
            break;
        }
        let k = offer_key(prices, body, d, h);
        best = best.min(k + tails[row.at + h * d]);
    }
    best
}

// What the repeats of width d offer, where the limit allows them and siblings match.
fn repeated(
    row: Row,
    prices: &[u64],
    tails: &[u64],
    body: u64,
    d: usize,
    span: usize,
    last: u64,
) -> u64
    requires row_fits { RowFits row × PricesReady prices.now × TailsReady tails.now × (body ≤ combined_digits top_key) }
    requires d_nonzero { (0 < d) × (d ≤ row.extent) × (row.at + d + span ≤ row.end) }
    ensures { (d ≤ row.limit → EndOffered row prices.now tails.now body d span last result) × (row.limit < d → result ≡ last) }
{
    if matched_within(d, row.limit, span) < d {
        last
    } else {
        offer_end(row, prices, tails, body, d, span, last)
    }
}

// The key of the stretch up to the end, the row's keys being final.
pub fn end_key(row: Row, prices: &[u64], rows: &Rows) -> u64
    requires row_fits { RowFits row × PricesReady prices.now }
    requires by_index { (w : ℕ) → 0 < w → row.at + w ≤ row.end → row.at + w + get_or rows.now.matches w 0 ≤ row.end }
    ensures whole { row.at + row.extent ≡ row.end → result ≡ get_or rows.now.keys row.extent 0 }
    ensures ending { row.at + row.extent < row.end → Ending row prices.now rows.now.matches rows.now.tails rows.now.keys row.extent result }
{
    let n = row.extent;
    if row.at + n == row.end {
        return rows.keys[n];
    }
    let mut last = key_of(row.own, 0) + rows.tails[row.at + 1];
    for d in 1..n + 1 {
        let key = rows.keys[d];
        last = followed(key, d, rows.tails[row.at + d], last);
        last = repeated(
            row,
            prices,
            &rows.tails,
            combined_digits(key),
            d,
            usize::from(rows.matches[d]),
            last,
        );
    }
    last
}
