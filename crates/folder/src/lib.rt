// The folder: the cheapest fold of a run under a width limit, ties by fewer repeats and then by byte order; and the same fold in
// its short form. One table of stretches serves the whole tree; only lent memory holds it.
#![tactic(auto)]

mod either;
mod prices;
mod run;

ghost use Rattle.std.specs.Prelude.{◌≡◌, IfOk, IfErr, length, take};
ghost use Rattle.format.specs.Answers.{folded_said, tariff_of};
ghost use Rattle.format.specs.declared.answers.Reason.TheVariants.{ShortOutput};
ghost use Rattle.format.specs.Readings.{format_rules};
ghost use Rattle.format.specs.Family.{long_form};
ghost use Rattle.optimum.specs.Demands.{CheapestWithin, CheapestOver, ShortOver, MinimumTree};
ghost use Rattle.folder.specs.Folding.{folding, shortened, fold_answer, fold_output, fold_work};

use either::fold_in;
use format::{Costs, PricedFold, Refusal};
use run::How;

// The cheapest fold of a run under a width limit, ties by fewer repeats and then by byte order: refusals 11, 15, 12, 18, the run's
// own, 13 and 14. `tariff` has the prices and the marks, `costs` and `choices` are the work. What it writes is the cheapest of all
// bytes and a smallest tree by the report, and 14 says that the cheapest of all bytes has no room.
pub fn fold(
    run: &[u8],
    limit: usize,
    tariff: &Costs,
    costs: &mut [u32],
    choices: &mut [u32],
    out: &mut [u8],
) -> Result<PricedFold, Refusal>
    ensures answered { folded_said result ≡ fold_answer (folding run.now limit (tariff_of tariff.now)) (length costs.old) (length choices.old) (length out.old) }
    ensures written { out.new ≡ fold_output (folding run.now limit (tariff_of tariff.now)) (length costs.old) (length choices.old) out.old }
    ensures costs_cleared { costs.new ≡ fold_work (folding run.now limit (tariff_of tariff.now)) (length costs.old) (length choices.old) costs.old }
    ensures choices_cleared { choices.new ≡ fold_work (folding run.now limit (tariff_of tariff.now)) (length costs.old) (length choices.old) choices.old }
    ensures cheapest { IfOk result (λ f. CheapestWithin run.now limit (format_rules (tariff_of tariff.now)) (take f.length out.new) f.cost) }
    ensures minimum { IfOk result (λ f. MinimumTree run.now limit (tariff_of tariff.now) (take f.length out.new)) }
    ensures too_long { IfErr result (λ e. e.reason ≡ ShortOutput → CheapestOver (length out.old) run.now limit (format_rules (tariff_of tariff.now))) }
{
    let how = How {
        limit,
        tariff,
        short: false,
    };
    fold_in(run, &how, costs, choices, out)
}

// Stays: not `fold` with a family for a parameter, since five of the seven clauses of each say another thing.
// The short folder: the same fold, written in its short form, which 14 measures. Which fold it is does not depend on the form: the
// long form of what it writes is the cheapest of all bytes, and the short form of what the folder writes is what it writes.
pub fn fold_short(
    run: &[u8],
    limit: usize,
    tariff: &Costs,
    costs: &mut [u32],
    choices: &mut [u32],
    out: &mut [u8],
) -> Result<PricedFold, Refusal>
    ensures answered { folded_said result ≡ fold_answer (shortened (folding run.now limit (tariff_of tariff.now))) (length costs.old) (length choices.old) (length out.old) }
    ensures written { out.new ≡ fold_output (shortened (folding run.now limit (tariff_of tariff.now))) (length costs.old) (length choices.old) out.old }
    ensures costs_cleared { costs.new ≡ fold_work (shortened (folding run.now limit (tariff_of tariff.now))) (length costs.old) (length choices.old) costs.old }
    ensures choices_cleared { choices.new ≡ fold_work (shortened (folding run.now limit (tariff_of tariff.now))) (length costs.old) (length choices.old) choices.old }
    ensures cheapest { IfOk result (λ f. CheapestWithin run.now limit (format_rules (tariff_of tariff.now)) (long_form (take f.length out.new)) f.cost) }
    ensures minimum { IfOk result (λ f. MinimumTree run.now limit (tariff_of tariff.now) (long_form (take f.length out.new))) }
    ensures too_long { IfErr result (λ e. e.reason ≡ ShortOutput → ShortOver (length out.old) run.now limit (format_rules (tariff_of tariff.now))) }
{
    let how = How {
        limit,
        tariff,
        short: true,
    };
    fold_in(run, &how, costs, choices, out)
}
