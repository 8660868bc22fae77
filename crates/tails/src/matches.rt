// The matches of one step: how many steps from it on equal the one some steps further and are free, at each width within the
// limit.
ghost use Rattle.std.specs.Prelude.{◌+◌, ◌*◌, ◌≤◌, ◌<◌, length};
ghost use Rattle.format.specs.Limits.{allowed};
ghost use Rattle.format.specs.Tree.{tree_of};
ghost use Rattle.tails.specs.Solving.{FlatRun, MatchAt, Matching};

use blocks::Block;
use format::is_marked;

// The matches of step i at width w, by the k of the next step: one more where the step equals the one w further and is free, else
// none.
fn match_at(run: &[u8], marks: &[u8], n: usize, i: usize, w: usize, k: u16) -> u16
    requires { (2 * n ≤ length run.now) × (n < 65536) × (i < n) × (w ≤ 32) × (k < 65535) }
    ensures { MatchAt run.now marks.now n i w k result }
{
    if n <= i + w {
        return 0;
    }
    let label = run[2 * i + 1];
    if run[2 * (i + w) + 1] != label || is_marked(marks, label) {
        return 0;
    }
    k + 1
}

// Makes the matches of step i of those of the next step.
// Stays: the parts of a season by themselves, since this asks nothing of its rates.
pub fn grow(
    run: &[u8],
    marks: &[u8],
    limit: usize,
    n: usize,
    i: usize,
    matches: &mut [u16; Block::TAIL],
)
    requires i_lt_n { (i < n) × (limit ≤ 32) }
    requires flat_run { FlatRun run.now n }
    requires matching { Matching (allowed limit marks.now) (tree_of run.now) matches.old (i + 1) }
    ensures { Matching (allowed limit marks.now) (tree_of run.now) matches.new i }
{
    for w in 1..limit + 1 {
        matches[w] = match_at(run, marks, n, i, w, matches[w]);
    }
}
