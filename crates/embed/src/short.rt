// The short family at the boundary: short reader, short folder, and both conversions.
ghost use Rattle.std.specs.Prelude.{◌≡◌, length, get_or, take};
ghost use Rattle.format.specs.Limits.{tariff};
ghost use Rattle.format.specs.Readings.{format_rules, short_reading};
ghost use Rattle.format.specs.Family.{long_form, to_short, to_long};
ghost use Rattle.format.specs.Meaning.{MeansAtCost};
ghost use Rattle.format.specs.Output.{written_answer, written_output};
ghost use Rattle.optimum.specs.Demands.{CheapestWithin, ShortOver, MinimumTree};
ghost use Rattle.folder.specs.Folding.{folding, shortened, fold_answer, fold_output, fold_work};
ghost use Rattle.embed.specs.Answers.{status, kept, entries, of_fold, of_folded, of_written};

use crate::answer::{Answer, ENTRIES, SHORT, lent};
use convert::{to_long, to_short};
use folder::fold_short;
use reader::read_short;

// The short reader: the fold reader of the short family, at the same arguments and with the same values.
#[unsafe(no_mangle)]
pub extern "C" fn runfold_read_short(
    fold: &[u8],
    limit: usize,
    steps: &[u16],
    groups: &[u16],
    marks: &[u8],
    first: u16,
    each: u16,
    answer: &mut [u64],
) -> u8
    ensures returned { result ≡ status answer.old (short_reading fold.now limit (tariff steps.now groups.now marks.now first each)).refusal }
    ensures answered { answer.new ≡ entries answer.old (of_fold (short_reading fold.now limit (tariff steps.now groups.now marks.now first each))) }
    ensures meant { result ≡ 0 → MeansAtCost limit (tariff steps.now groups.now marks.now first each) (long_form fold.now) (get_or answer.new 3 0) (get_or answer.new 4 0) }
{
    if answer.len() < ENTRIES {
        return SHORT;
    }
    let costs = lent(steps, groups, marks, first, each);
    Answer::from(read_short(fold, limit, &costs)).store(answer)
}

// The short folder: the folder's fold in its short form, which 14 measures, over two lent work slices: the length written and the
// fold's cost.
#[unsafe(no_mangle)]
pub extern "C" fn runfold_fold_short(
    run: &[u8],
    limit: usize,
    steps: &[u16],
    groups: &[u16],
    marks: &[u8],
    first: u16,
    each: u16,
    costs: &mut [u32],
    choices: &mut [u32],
    out: &mut [u8],
    answer: &mut [u64],
) -> u8
    ensures returned { result ≡ status answer.old (fold_answer (shortened (folding run.now limit (tariff steps.now groups.now marks.now first each))) (length costs.old) (length choices.old) (length out.old)).refusal }
    ensures answered { answer.new ≡ entries answer.old (of_folded (fold_answer (shortened (folding run.now limit (tariff steps.now groups.now marks.now first each))) (length costs.old) (length choices.old) (length out.old))) }
    ensures written { out.new ≡ kept answer.old out.old (fold_output (shortened (folding run.now limit (tariff steps.now groups.now marks.now first each))) (length costs.old) (length choices.old) out.old) }
    ensures costs_cleared { costs.new ≡ kept answer.old costs.old (fold_work (shortened (folding run.now limit (tariff steps.now groups.now marks.now first each))) (length costs.old) (length choices.old) costs.old) }
    ensures choices_cleared { choices.new ≡ kept answer.old choices.old (fold_work (shortened (folding run.now limit (tariff steps.now groups.now marks.now first each))) (length costs.old) (length choices.old) choices.old) }
    ensures cheapest { result ≡ 0 → CheapestWithin run.now limit (format_rules (tariff steps.now groups.now marks.now first each)) (long_form (take (get_or answer.new 3 0) out.new)) (get_or answer.new 4 0) }
    ensures minimum { result ≡ 0 → MinimumTree run.now limit (tariff steps.now groups.now marks.now first each) (long_form (take (get_or answer.new 3 0) out.new)) }
    ensures too_long { result ≡ 14 → ShortOver (length out.old) run.now limit (format_rules (tariff steps.now groups.now marks.now first each)) }
{
    if answer.len() < ENTRIES {
        return SHORT;
    }
    let tariff = lent(steps, groups, marks, first, each);
    Answer::from(fold_short(run, limit, &tariff, costs, choices, out)).store(answer)
}

// A fold to its short form: the length written.
#[unsafe(no_mangle)]
pub extern "C" fn runfold_to_short(fold: &[u8], out: &mut [u8], answer: &mut [u64]) -> u8
    ensures returned { result ≡ status answer.old (written_answer (to_short fold.now) (length out.old)).refusal }
    ensures answered { answer.new ≡ entries answer.old (of_written (written_answer (to_short fold.now) (length out.old))) }
    ensures written { out.new ≡ kept answer.old out.old (written_output (to_short fold.now) out.old) }
{
    if answer.len() < ENTRIES {
        return SHORT;
    }
    Answer::of_text(to_short(fold, out)).store(answer)
}

// A short fold to its long form: the length written.
#[unsafe(no_mangle)]
pub extern "C" fn runfold_to_long(fold: &[u8], out: &mut [u8], answer: &mut [u64]) -> u8
    ensures returned { result ≡ status answer.old (written_answer (to_long fold.now) (length out.old)).refusal }
    ensures answered { answer.new ≡ entries answer.old (of_written (written_answer (to_long fold.now) (length out.old))) }
    ensures written { out.new ≡ kept answer.old out.old (written_output (to_long fold.now) out.old) }
{
    if answer.len() < ENTRIES {
        return SHORT;
    }
    Answer::of_text(to_long(fold, out)).store(answer)
}
