// An accepted run: its nodes are listed, its table is filled, the fold is measured and written by both, and the table is cleared.
ghost use Rattle.std.specs.Prelude.{◌≡◌, ◌<◌, ◌≤◌, length, get_or};
ghost use Rattle.format.specs.Answers.{folded_said, tariff_of};
ghost use Rattle.format.specs.Limits.{Prices, Allowed, allowed, priced, cells};
ghost use Rattle.format.specs.Tree.{tree_of};
ghost use Rattle.table.specs.Table.{Kept, cell};
ghost use Rattle.table.specs.Nodes.{NodesListed};
ghost use Rattle.writer.specs.Writing.{WriteReady, FoldWritten};
ghost use Rattle.folder.specs.Folding.{short_work};
ghost use Rattle.folder.specs.inner.Run.{RunReady, RunFilled, RunWritten, RunFolded};

use crate::prices::{prepare, tables_of};
use filling::{Level, Scratch, enter_tree};
use format::{Costs, PricedFold, Reason, Refusal};
use solver::Rows;
use table::{Lists, Nodes, Siblings, Span, entries, entry};
use writer::Source;

// How a run is to be folded: the width limit, the lent prices and marks, and the family in which the fold is written.
#[derive(Clone, Copy)]
pub struct How<'a> {
    pub limit: usize,
    pub tariff: &'a Costs<'a>,
    pub short: bool,
}

// Whether a work slice is too short for n nodes.
pub fn short_of(n: usize, costs: usize, choices: usize) -> bool
    requires { n ≤ 1024 }
    ensures { result ≡ short_work n costs choices }
{
    let needed = entries(n);
    costs < needed || choices < needed
}

// Fills the table of the run, whose nodes are listed, with all stretches that a fold can use. What one sequence is worked in is lent
// to all of them in turn.
fn fill(
    run: &[u8],
    n: usize,
    limit: usize,
    nodes: &Nodes,
    tariff: &Costs,
    costs: &mut [u32],
    choices: &mut [u32],
)
    requires run_ready { RunReady run.now n costs.old choices.old }
    requires run_listed { NodesListed nodes.now.places nodes.now.nexts 0 0 (tree_of run.now) }
    ensures filled { RunFilled run.now n (allowed limit tariff.now.marks.now) (priced (tariff_of tariff.now)) costs.new choices.new }
    ensures kept { Kept 0 n costs.old costs.new × Kept 0 n choices.old choices.new }
{
    let mut prices = [0; Lists::LENGTH];
    prepare(tariff.first, tariff.each, &mut prices);
    let tables = tables_of(tariff.steps, tariff.groups, tariff.marks, &prices);
    let span = Span {
        start: 0,
        first: n,
        behind: 0,
    };
    let mut scratch = Scratch {
        siblings: Siblings {
            offsets: [0; Lists::LENGTH],
            numbers: [0; Lists::LENGTH],
            kinds: [0; Lists::LENGTH],
        },
        rows: Rows {
            matches: [0; Lists::LENGTH],
            extents: [0; Lists::LENGTH],
            tails: [0; Lists::LENGTH],
            stops: [0; Lists::LENGTH],
            seen: [0; Lists::LENGTH],
            keys: [0; Lists::LENGTH],
        },
    };
    enter_tree(
        nodes,
        run,
        Level { span, limit },
        &tables,
        &mut scratch,
        costs,
        choices,
    );
}

// The cost of the whole run, whose n nodes are entered.
fn whole_cost(costs: &[u32], n: usize) -> u64
    requires { (n ≤ 1024) × (cells n ≤ length costs.now) }
    ensures { ((n ≡ 0 → result ≡ 0)) × (0 < n → result ≡ get_or costs.now (cell 0 n) 0) }
{
    if n == 0 {
        return 0;
    }
    u64::from(costs[entry(0, n)])
}

// Writes the cheapest fold of the n nodes at the front of the output, and answers its length.
// Stays: a function of its own, so that an edit can leave it before a byte of the fold is written.
fn write_run(source: &Source, n: usize, out: &mut [u8]) -> usize
    requires { WriteReady source.now n 0 }
    ensures { FoldWritten source.now n 0 out.old out.new result }
{
    source.put_fold(n, 0, out)
}

// The fold of a run whose n nodes are listed and entered, written where it fits: its length is known before a byte is written.
fn put_run(source: &Source, n: usize, costs: &[u32], out: &mut [u8]) -> Result<PricedFold, Refusal>
    requires run_listed { NodesListed source.now.nodes.now.places source.now.nodes.now.nexts 0 0 (tree_of source.now.run.now) }
    requires run_filled { (A : Allowed) × ((P : Prices) × RunFilled source.now.run.now n A P costs.now source.now.choices.now) }
    ensures { RunWritten source.now.short source.now.run.now n costs.now source.now.choices.now out.old out.new (folded_said result) }
{
    let length = source.fold_length(n, 0);
    if out.len() < length {
        return Err(Reason::ShortOutput.at(0));
    }
    write_run(source, n, out);
    Ok(PricedFold {
        length,
        cost: whole_cost(costs, n),
    })
}

// Folds an accepted run of n nodes, and clears the table.
pub fn fold_run(
    run: &[u8],
    n: usize,
    how: &How,
    costs: &mut [u32],
    choices: &mut [u32],
    out: &mut [u8],
) -> Result<PricedFold, Refusal>
    requires { RunReady run.now n costs.old choices.old }
    ensures { RunFolded how.now.short run.now n (allowed how.now.limit how.now.tariff.now.marks.now) (priced (tariff_of how.now.tariff.now)) costs.old costs.new choices.old choices.new out.old out.new (folded_said result) }
{
    let mut nodes = Nodes {
        places: [0; Lists::LENGTH],
        nexts: [0; Lists::LENGTH],
    };
    nodes.list(run, n);
    fill(run, n, how.limit, &nodes, how.tariff, costs, choices);
    let source = Source {
        run,
        nodes: &nodes,
        choices,
        short: how.short,
    };
    let r = put_run(&source, n, costs, out);
    let used = entries(n);
    costs[..used].fill(0);
    choices[..used].fill(0);
    r
}
