// The readers: run reader, part of a node, fold reader with cost, the same of the short family, and without limit and costs. Each
// kind of runs, the format's and whole seasons, has the same readers within its own limits. One walk serves them all (crate walk).
// Each answers for every input whatsoever, and none writes anywhere.
#![tactic(auto)]

mod node;

ghost use Rattle.std.specs.Prelude.{◌≡◌, ◌↔◌, false, IfOk, IsTrue};
ghost use Rattle.format.specs.Readings.{as_run_reading, run_outcome_in, run_reading_in, outcome_by, measured_by, alone_in, reading_by, short_reading, as_fold_reading};
ghost use Rattle.format.specs.Answers.{run_said, fold_said, tariff_of};
ghost use Rattle.format.specs.Family.{long_form};
ghost use Rattle.format.specs.Meaning.{MeansAtCostIn, MeansAtCost};
ghost use Rattle.format.specs.Parts.{node_part, part_of};

use format::{Costs, FoldCounts, Format, Head, Kind, Refusal, RunCounts};
use node::{node_end, starts_at};
use walk::{Terms, whole};

// The run reader: refusals 1 to 5, 21, 8 and 10, or the nodes, the steps and the depth.
#[tactic(auto, using(crate::proofs::Answers::run_refused))]
pub fn read_run<K: Kind>(run: &[u8]) -> Result<RunCounts, Refusal>
    ensures { run_said result ≡ run_reading_in K.bounds run.now }
{
    let terms = Terms {
        limits: K::limits(),
        folds: false,
        short: false,
        widest: 0,
        costs: Costs::none(),
    };
    Ok(RunCounts::from(whole(run, &terms)?))
}

// The admission of a run at an entry point with this head: the checks of the head, then the run's own refusals.
pub fn admit<K: Kind>(run: &[u8], head: Head) -> Result<RunCounts, Refusal>
    ensures { run_said result ≡ as_run_reading (run_outcome_in K.bounds head run.now) }
{
    head.check(K::limits())?;
    read_run::<K>(run)
}

// The node that stands at an offset, with all it holds; what is left where it does not end.
pub fn node_at(s: &[u8], at: usize) -> &[u8]
    ensures { result.now ≡ node_part s.now at }
{
    if s.len() <= at {
        return &[];
    }
    let end = node_end(s, at);
    if s.len() < end {
        return &s[at..];
    }
    &s[at..end]
}

// The part of a node: the step or group that starts at an offset, with all it holds; empty where the run is refused or no
// node starts there.
pub fn part(run: &[u8], at: usize) -> &[u8]
    ensures { result.now ≡ part_of run.now at }
{
    if read_run::<Format>(run).is_err() || !starts_at(run, at) {
        return &[];
    }
    node_at(run, at)
}

// Whether two siblings are equal, label and children together: whether their parts are.
pub fn same_node(run: &[u8], a: usize, b: usize) -> bool
    ensures { IsTrue result ↔ (part_of run.now a ≡ part_of run.now b) }
{
    part(run, a) == part(run, b)
}

// A fold of a family at an entry point with this head: the checks of the head, then refusals 1, 21, 3 to 10 and 19, in the short
// family 20 as well; or the nodes, bytes, steps and depth of the run and the fold's cost.
fn read_headed<K: Kind>(
    fold: &[u8],
    short: bool,
    head: Head,
    costs: Costs,
) -> Result<FoldCounts, Refusal>
    ensures { fold_said result ≡ as_fold_reading (outcome_by K.bounds short head (tariff_of costs.entry) fold.now) }
{
    let limits = K::limits();
    head.check(limits)?;
    let terms = Terms {
        limits,
        folds: true,
        short,
        widest: head.limit,
        costs,
    };
    Ok(FoldCounts::from(whole(fold, &terms)?))
}

// A fold at a width limit, without costs: refusals 12, 1, 21 and 3 to 10, or the nodes, bytes, steps and depth of the run at cost 0.
pub fn measure<K: Kind>(fold: &[u8], limit: usize) -> Result<FoldCounts, Refusal>
    ensures { fold_said result ≡ as_fold_reading (measured_by K.bounds fold.now limit) }
{
    let head = Head {
        steps: Format::LABELS,
        groups: Format::LABELS,
        limit,
        marks: true,
    };
    read_headed::<K>(fold, false, head, Costs::none())
}

// A fold of a family by itself, without limit and costs: refusals 1, 3 to 6 and 8 to 10, in the short family 20 as well, or the
// nodes, bytes, steps and depth of the run at cost 0. The walk gets a width limit that no operand passes.
pub fn read_alone(fold: &[u8], short: bool) -> Result<FoldCounts, Refusal>
    ensures { fold_said result ≡ as_fold_reading (alone_in short fold.now) }
{
    let terms = Terms {
        limits: Format::limits(),
        folds: true,
        short,
        widest: Format::GREATEST_OPERAND,
        costs: Costs::none(),
    };
    Ok(FoldCounts::from(whole(fold, &terms)?))
}

// The fold reader: refusals 11, 15, 12, 18, 1, 21, 3 to 10 and 19, or the nodes, bytes, steps and depth of the run and the fold's
// cost. What it accepts means, in the report's words, a run of that length at that cost.
pub fn read_fold<K: Kind>(fold: &[u8], limit: usize, costs: &Costs) -> Result<FoldCounts, Refusal>
    ensures answered { fold_said result ≡ reading_by K.bounds false fold.now limit (tariff_of costs.now) }
    ensures meant { IfOk result (λ f. MeansAtCostIn K.bounds limit (tariff_of costs.now) fold.now f.length f.cost) }
{
    read_headed::<K>(fold, false, Head::full(limit, costs), *costs)
}

// The short reader: the fold reader of the short family, which refuses with 20 as well. What it accepts means, in the report's
// words, what its long form means.
// Stays: not `read_fold` with a family for a parameter, since the clause `meant` of each says another thing.
pub fn read_short(fold: &[u8], limit: usize, costs: &Costs) -> Result<FoldCounts, Refusal>
    ensures answered { fold_said result ≡ short_reading fold.now limit (tariff_of costs.now) }
    ensures meant { IfOk result (λ f. MeansAtCost limit (tariff_of costs.now) (long_form fold.now) f.length f.cost) }
{
    read_headed::<Format>(fold, true, Head::full(limit, costs), *costs)
}
