// The folder in either family: admission, work, prices, and the fold of the run, written in the long form or in the short one.
ghost use Rattle.std.specs.Prelude.{◌≡◌, length};
ghost use Rattle.format.specs.Answers.{folded_said, tariff_of};
ghost use Rattle.folder.specs.Folding.{folding_in, fold_answer, fold_output, fold_work};

use crate::run::{How, fold_run, short_of};
use format::{Format, Head, PricedFold, Reason, Refusal};
use reader::admit;

// What both folders answer, write and leave in the work.
pub fn fold_in(
    run: &[u8],
    how: &How,
    costs: &mut [u32],
    choices: &mut [u32],
    out: &mut [u8],
) -> Result<PricedFold, Refusal>
    ensures answered { folded_said result ≡ fold_answer (folding_in how.now.short run.now how.now.limit (tariff_of how.now.tariff.now)) (length costs.old) (length choices.old) (length out.old) }
    ensures written { out.new ≡ fold_output (folding_in how.now.short run.now how.now.limit (tariff_of how.now.tariff.now)) (length costs.old) (length choices.old) out.old }
    ensures costs_cleared { costs.new ≡ fold_work (folding_in how.now.short run.now how.now.limit (tariff_of how.now.tariff.now)) (length costs.old) (length choices.old) costs.old }
    ensures choices_cleared { choices.new ≡ fold_work (folding_in how.now.short run.now how.now.limit (tariff_of how.now.tariff.now)) (length costs.old) (length choices.old) choices.old }
{
    let n = admit::<Format>(run, Head::full(how.limit, how.tariff))?.nodes;
    if short_of(n, costs.len(), choices.len()) {
        return Err(Reason::ShortWork.at(0));
    }
    fold_run(run, n, how, costs, choices, out)
}
