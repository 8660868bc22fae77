// The season folder: the cheapest fold of a flat run of up to 65,535 steps under a width limit of at most 32, in work that grows
// with the steps and not with their square.
#![tactic(auto)]

mod run;
mod write;

ghost use Rattle.std.specs.Prelude.{◌≡◌, ℕ, ◌<◌, IfOk, IfErr, length, take, get_or};
ghost use Rattle.format.specs.Limits.{season};
ghost use Rattle.format.specs.Answers.{folded_said, tariff_of};
ghost use Rattle.format.specs.declared.answers.Reason.TheVariants.{ShortOutput};
ghost use Rattle.format.specs.Readings.{season_rules};
ghost use Rattle.optimum.specs.Demands.{CheapestWithin, CheapestOver, MinimumTreeIn};
ghost use Rattle.season.specs.Folding.{season_folding, season_answer, season_output, season_work};

use format::{Costs, Head, PricedFold, Reason, Refusal, Season};
use reader::admit;
use run::{entries, fold_run};
use tails::{FlatSeason, Rates};

// The cheapest fold of a season run under a width limit, ties by fewer repeats and then by byte order: refusals 11, 15, 12, 18,
// the run's own, 13 and 14. `tariff` has the prices and the marks, `work` is the work. What it writes is the cheapest of all bytes
// that are season folds and a smallest tree by the report, and 14 says that the cheapest of all bytes has no room.
pub fn fold_season(
    run: &[u8],
    limit: usize,
    tariff: &Costs,
    work: &mut [u32],
    out: &mut [u8],
) -> Result<PricedFold, Refusal>
    ensures answered { folded_said result ≡ season_answer (season_folding run.now limit (tariff_of tariff.now)) (length work.old) (length out.old) }
    ensures written { out.new ≡ season_output (season_folding run.now limit (tariff_of tariff.now)) (length work.old) out.old }
    ensures cleared { work.new ≡ season_work (season_folding run.now limit (tariff_of tariff.now)) (length work.old) work.old }
    ensures cheapest { IfOk result (λ f. CheapestWithin run.now limit (season_rules (tariff_of tariff.now)) (take f.length out.new) f.cost) }
    ensures minimum { IfOk result (λ f. MinimumTreeIn season run.now limit (tariff_of tariff.now) (take f.length out.new)) }
    ensures too_long { IfErr result (λ e. e.reason ≡ ShortOutput → CheapestOver (length out.old) run.now limit (season_rules (tariff_of tariff.now))) }
{
    let counts = admit::<Season>(run, Head::full(limit, tariff))?;
    let n = counts.nodes;
    if work.len() < entries(n) {
        return Err(Reason::ShortWork.at(0));
    }
    let rates = Rates::new(tariff.first, tariff.each);
    let season = season_of(run, n, limit, tariff.steps, tariff.marks, rates);
    fold_run(&season, work, out)
}

// What an accepted run is folded by. The costs of steps are low, since they are of 16 bits.
fn season_of<'a>(
    run: &'a [u8],
    n: usize,
    limit: usize,
    steps: &'a [u16],
    marks: &'a [u8],
    rates: Rates,
) -> FlatSeason<'a>
    ensures lent { (result.run.now ≡ run.now) × (result.steps.now ≡ steps.now) × (result.marks.now ≡ marks.now) }
    ensures said { (result.n ≡ n) × (result.limit ≡ limit) × (result.rates ≡ rates) }
    ensures low { (l : ℕ) → get_or steps.now l 0 < 65536 }
{
    FlatSeason {
        run,
        n,
        limit,
        steps,
        marks,
        rates,
    }
}
