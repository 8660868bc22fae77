// An accepted season run: its blocks are filled, the fold is measured and written by them, and they are cleared.
ghost use Rattle.std.specs.Prelude.{◌≡◌, true, ◌<◌, length};
ghost use Rattle.format.specs.Limits.{Prices, Allowed};
ghost use Rattle.format.specs.Answers.{folded_said};
ghost use Rattle.optimum.specs.Fewest.{counting};
ghost use Rattle.blocks.specs.Keys.{factor};
ghost use Rattle.tails.specs.Solving.{PricesAre};
ghost use Rattle.tails.specs.Given.{SeasonReady};
ghost use Rattle.season.specs.Folding.{work_entries};
ghost use Rattle.season.specs.Writing.{StepsFit, StepsReady, fold_bytes};
ghost use Rattle.season.specs.inner.Run.{RunFilled, RunWritten, RunFolded};

use crate::write::put_steps;
use blocks::{Block, key_at, slot};
use format::{PricedFold, Reason, Refusal};
use table::clear;
use tails::{FlatSeason, fill};

// The entries that the work must have for n steps.
pub fn entries(n: usize) -> usize
    requires { n < 65536 }
    ensures { result ≡ work_entries n }
{
    Block::ENTRIES * (n + 1)
}

// The length of the cheapest fold of the whole run of n steps.
fn fold_length(run: &[u8], work: &[u32], n: usize) -> usize
    requires { StepsFit run.now work.now true 0 n 0 }
    ensures { (z : StepsReady run.now work.now true 0 n) → result ≡ length (fold_bytes z) }
{
    let mut none: [u8; 0] = [0; 0];
    put_steps(run, work, true, 0, n, &mut none, 0)
}

// The fold of a run of n steps whose blocks are filled, written where it fits: its length is known before a byte is written.
fn put_run(run: &[u8], n: usize, work: &[u32], out: &mut [u8]) -> Result<PricedFold, Refusal>
    requires { (A : Allowed) × ((P : Prices) × RunFilled run.now n A P work.now) }
    ensures { RunWritten run.now n work.now out.old out.new (folded_said result) }
{
    let length = fold_length(run, work, n);
    if out.len() < length {
        return Err(Reason::ShortOutput.at(0));
    }
    put_steps(run, work, true, 0, n, out, 0);
    let whole = key_at(work, slot(0, Block::TAIL));
    Ok(PricedFold {
        length,
        cost: whole.both / Block::REPEATS,
    })
}

// Folds an accepted season and clears the work.
pub fn fold_run(
    season: &FlatSeason,
    work: &mut [u32],
    out: &mut [u8],
) -> Result<PricedFold, Refusal>
    requires fill_ready { SeasonReady season.now work.old }
    requires prices_are { (P : Prices) × PricesAre season.now.steps.now season.now.rates (counting factor P) }
    ensures { RunFolded season.now.run.now season.now.steps.now season.now.marks.now season.now.rates season.now.limit season.now.n work.old work.new out.old out.new (folded_said result) }
{
    fill(season, work);
    let folded = put_run(season.run, season.n, work, out);
    clear(work, entries(season.n));
    folded
}
