// One row of the table: the cheapest folds of the stretches that begin at one sibling.
ghost use Rattle.std.specs.Prelude.{◌≡◌, ℕ, ◌+◌, ◌*◌, ◌<◌, ◌≤◌, get_or};
ghost use Rattle.table.specs.Keys.{combined_digits};
ghost use Rattle.solver.specs.Rows.{KeysReady, PricesReady, TailsReady, RowFits, RowHeld, RowRead, RowReady, Started, Marked, Pushed, Widened, Advanced, RowEntered};

use crate::ends::end_key;
use crate::keys::{Solved, copy_row, offer, plain_row, push};
use crate::pairs::{mark, may_be_first};
use crate::rows::Rows;
use table::{Lists, combined_digits, covered, key_of, rest_of, store_entry, store_row};

// A row: the stretches that begin at sibling `at` of the `end` siblings of a sequence, in which no repeat is wider than `limit`. The
// sibling has `own` for cost and repeats, combined, by itself. The first `span` siblings are those from `shift` further on, in a row that
// is solved as far. Solved are the stretches of up to `extent` siblings, and the one up to the end.
#[derive(Clone, Copy)]
pub struct Row {
    pub at: usize,
    pub end: usize,
    pub limit: usize,
    pub own: u64,
    pub shift: usize,
    pub span: usize,
    pub extent: usize,
}

// The keys of a row before any repeat is offered.
fn start_row(solved: &Solved, row: Row, keys: &mut [u64])
    requires row_read { RowRead solved.now.costs.now solved.now.choices.now solved.now.numbers.now row }
    requires row_fits { RowFits row × KeysReady keys.old }
    ensures { Started solved.now.costs.now solved.now.choices.now solved.now.numbers.now row keys.new }
{
    copy_row(solved, row, keys);
    keys[1] = key_of(row.own, 0);
    plain_row(solved, row, past(1, row.span), keys);
}

// The first number above both.
fn past(d: usize, span: usize) -> usize
    requires { (d ≤ 1024) × (span ≤ 1024) }
    ensures { (d < result) × (span < result) × (result ≤ 1025) × ((c : ℕ) → d < c → span < c → result ≤ c) }
{
    d.max(span) + 1
}

// The first count from 2 on whose repeats of width d cover more than `span` siblings.
pub fn count_past(d: usize, span: usize) -> usize
    requires { (0 < d) × (d ≤ 1024) × (span ≤ 1024) }
    ensures { (2 ≤ result) × (result ≤ 1025) × (span < result * d) × ((g : ℕ) → 2 ≤ g → g < result → g * d ≤ span) }
{
    if span < d { 2 } else { span / d + 1 }
}

// How many siblings match for a repeat of width d: none where the limit forbids that width.
pub fn matched_within(d: usize, limit: usize, matched: usize) -> usize
    ensures { ((d ≤ limit → result ≡ matched)) × ((limit < d → result ≡ 0)) }
{
    if limit < d { 0 } else { matched }
}

// The stretch of d siblings is solved: what is left is put behind it where it is cheapest as one repeat and may be first in a longer
// stretch. The keys of up to `span` siblings are final.
fn follow(
    solved: &Solved,
    row: Row,
    d: usize,
    stops: &[usize; Lists::LENGTH],
    seen: &[usize; Lists::LENGTH],
    keys: &mut [u64],
)
    requires row_read { RowRead solved.now.costs.now solved.now.choices.now solved.now.numbers.now row }
    requires row_fits { RowFits row × KeysReady keys.old × (0 < d) × (d ≤ row.extent) × Marked row keys.old seen.now × TailsReady solved.now.tails.now }
    ensures low { KeysReady keys.new }
    ensures pushed { Pushed solved.now.costs.now solved.now.choices.now solved.now.numbers.now solved.now.tails.now row stops.now d (get_or keys.old d 0) keys.old keys.new }
{
    let key = keys[d];
    if covered(key) == d && may_be_first(row, d, stops, seen) {
        push(solved, row, d, key, past(d, row.span), keys);
    }
}

// The same stretch is repeated as far as siblings match, `room` of them, within the row's extent.
fn widen(row: Row, prices: &[u64], d: usize, room: usize, keys: &mut [u64])
    requires { RowFits row × KeysReady keys.old × PricesReady prices.now × (0 < d) × (room + d ≤ row.extent) }
    ensures low { KeysReady keys.new }
    ensures widened { Widened row prices.now (combined_digits (get_or keys.old d 0)) d room keys.old keys.new }
{
    if d <= matched_within(d, row.limit, room) {
        offer(
            prices,
            combined_digits(keys[d]),
            d,
            room,
            count_past(d, row.span),
            keys,
        );
    }
}

// Solves a row, stretch by stretch, and answers the most siblings that the first item of a stretch covers.
fn solve(
    solved: &Solved,
    row: Row,
    prices: &[u64],
    matches: &[u16; Lists::LENGTH],
    stops: &[usize; Lists::LENGTH],
    seen: &[usize; Lists::LENGTH],
    keys: &mut [u64],
) -> usize
    requires row_read { RowRead solved.now.costs.now solved.now.choices.now solved.now.numbers.now row }
    requires row_fits { RowFits row × KeysReady keys.old × PricesReady prices.now × Marked row keys.old seen.now × TailsReady solved.now.tails.now }
    ensures { Advanced solved.now.costs.now solved.now.choices.now solved.now.numbers.now row prices.now matches.now solved.now.tails.now stops.now row.extent keys.old keys.new result }
{
    let mut longest: usize = 1;
    for d in 1..row.extent + 1 {
        longest = longest.max(covered(keys[d]));
        follow(solved, row, d, stops, seen, keys);
        widen(
            row,
            prices,
            d,
            usize::from(matches[d]).min(row.extent - d),
            keys,
        );
    }
    longest
}

// Solves a row and enters it in the table, with what it adds as a tail and where its first items end.
pub fn enter_row(
    costs: &mut [u32],
    choices: &mut [u32],
    numbers: &[usize],
    row: Row,
    prices: &[u64],
    rows: &mut Rows,
)
    requires row_held { RowHeld costs.old choices.old numbers.now row }
    requires row_ready { RowReady costs.old choices.old numbers.now row prices.now rows.old.matches rows.old.tails rows.old.stops }
    ensures kept { (rows.new.matches ≡ rows.old.matches) × (rows.new.extents ≡ rows.old.extents) }
    ensures entered { RowEntered costs.old choices.old numbers.now row prices.now rows.old.matches rows.old.tails rows.old.stops costs.new choices.new rows.new.tails rows.new.stops }
{
    let solved = Solved {
        costs,
        choices,
        numbers,
        tails: &rows.tails,
    };
    start_row(&solved, row, &mut rows.keys);
    mark(row, &rows.keys, &mut rows.seen);
    let longest = solve(
        &solved,
        row,
        prices,
        &rows.matches,
        &rows.stops,
        &rows.seen,
        &mut rows.keys,
    );
    let last = end_key(row, prices, rows);
    let at = row.at;
    rows.stops[at] = at + longest;
    rows.tails[at] = rest_of(last);
    store_row(costs, choices, numbers, at, row.extent, &rows.keys);
    store_entry(costs, choices, numbers, at, row.end, last);
}
