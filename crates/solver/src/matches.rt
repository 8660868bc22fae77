// The matches of a row, how many siblings from one on equal those further on, and what the row is drawn from by them.
ghost use Rattle.std.specs.Prelude.{◌≡◌, ℕ, ◌+◌, ◌<◌, ◌≤◌, length, get_or};
ghost use Rattle.solver.specs.Rows.{Growing, Drawn, Wider};

use table::Lists;

// What a row is drawn from: its first `span` siblings are those from `shift` further on, in a row that is solved as far; and it is to be
// solved itself for up to `extent` siblings.
#[derive(Clone, Copy)]
pub struct Source {
    pub extent: usize,
    pub shift: usize,
    pub span: usize,
}

// Widths at which a whole power is solved, and not its body alone: the rows of an equal power further ahead take over more of it.
const SHORT_WIDTHS: usize = 8;

// How far a row is to be solved where k siblings match at width w: a body does not overlap its copy.
fn asked(w: usize, k: usize) -> usize
    requires { (w ≤ 1024) × (k ≤ 1024) }
    ensures { (d : ℕ) → d ≤ k → d ≤ w → d ≤ result }
{
    if w <= SHORT_WIDTHS { k + w } else { k.min(w) }
}

// One width more: k siblings match at width w, and the row that is w further on is solved for up to `further` siblings.
fn wider(g: Source, w: usize, k: usize, further: usize) -> Source
    requires { (w ≤ 1024) × (k ≤ 1024) }
    ensures { Wider w k further g result }
{
    let extent = g.extent.max(asked(w, k));
    let span = k.min(further);
    if g.span < span {
        Source {
            extent,
            shift: w,
            span,
        }
    } else {
        Source { extent, ..g }
    }
}

// Grows the matches from sibling i + 1 to sibling i: how many siblings from i on equal the one w further, for each width w.
pub fn grow(kinds: &[u16], i: usize, m: usize, matches: &mut [u16; Lists::LENGTH])
    requires kinds_len { (length kinds.now ≡ 1025) × (m ≤ 1024) × (i < m) }
    requires by_index { (w : ℕ) → 0 < w → i + w < m → get_or matches.old w 0 + i < 1024 }
    ensures { Growing kinds.now i m matches.old matches.new }
{
    let kind = kinds[i];
    let n = m - i;
    for w in 1..n {
        let matched = matches[w];
        matches[w] = if kind == kinds[i + w] { matched + 1 } else { 0 };
    }
    matches[n] = 0;
}

// The first width from w on at which more than `low` siblings match, n where there is none below it.
fn next_over(matches: &[u16; Lists::LENGTH], w: usize, n: usize, low: usize) -> usize
    requires { (w ≤ n) × (n ≤ 1024) }
    ensures { (w ≤ result) × (result ≤ n) × ((v : ℕ) → w ≤ v → v < result → get_or matches.now v 0 ≤ low) }
{
    (w..n).find(|v| low < usize::from(matches[*v])).unwrap_or(n)
}

// What the row of sibling i is drawn from by its matches. Whatever matches, the last sibling's row is whole, so that the rows of a power
// that goes up to the end can be. A row is solved no further than its ends are in the next row.
pub fn draw(
    matches: &[u16; Lists::LENGTH],
    extents: &[usize; Lists::LENGTH],
    i: usize,
    m: usize,
) -> Source
    requires m_bound { (m ≤ 1024) × (i < m) }
    requires by_index { (w : ℕ) → 0 < w → i + w ≤ m → get_or matches.now w 0 + i ≤ 1024 }
    requires i_bound { get_or extents.now (i + 1) 0 ≤ 1024 }
    ensures { Drawn extents.now i m matches.now result }
{
    let n = m - i;
    let mut g = Source {
        extent: usize::from(n == 1),
        shift: 1,
        span: 0,
    };
    let mut w = 1;
    // Stays: a step goes on behind the width that was found, past all those between.
    while w < n {
        w = next_over(matches, w, n, g.span.min(g.extent));
        g = wider(g, w, usize::from(matches[w]), extents[i + w]);
        w += 1;
    }
    let extent = g.extent.min(extents[i + 1] + 1);
    Source {
        extent,
        span: g.span.min(extent),
        ..g
    }
}
