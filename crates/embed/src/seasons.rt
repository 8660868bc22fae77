// Whole seasons at the boundary: season run reader, season reader, season unroller and season folder.
ghost use Rattle.std.specs.Prelude.{◌≡◌, length, get_or, take};
ghost use Rattle.format.specs.Limits.{season, tariff, at_most};
ghost use Rattle.format.specs.Readings.{season_rules, season_run_reading, season_measured, season_reading};
ghost use Rattle.format.specs.Meaning.{MeansIn, MeansAtCostIn};
ghost use Rattle.format.specs.Output.{written_answer, written_output};
ghost use Rattle.optimum.specs.Demands.{CheapestWithin, CheapestOver, MinimumTreeIn};
ghost use Rattle.season.specs.Folding.{season_folding, season_answer, season_output, season_work};
ghost use Rattle.embed.specs.Answers.{status, kept, entries, of_run, of_fold, of_written, of_folded};

use crate::answer::{Answer, ENTRIES, SHORT, lent};
use format::Season;
use reader::{read_fold, read_run};
use season::fold_season;
use unroller::unroll;

// The season run reader: the number of nodes, all of them steps, at depth 0.
#[unsafe(no_mangle)]
pub extern "C" fn runfold_read_season_run(run: &[u8], answer: &mut [u64]) -> u8
    ensures returned { result ≡ status answer.old (season_run_reading run.now).refusal }
    ensures answered { answer.new ≡ entries answer.old (of_run (season_run_reading run.now)) }
{
    if answer.len() < ENTRIES {
        return SHORT;
    }
    Answer::from(read_run::<Season>(run)).store(answer)
}

// The season reader: the fold reader of season folds, at the same arguments and with the same values.
#[unsafe(no_mangle)]
pub extern "C" fn runfold_read_season(
    fold: &[u8],
    limit: usize,
    steps: &[u16],
    groups: &[u16],
    marks: &[u8],
    first: u16,
    each: u16,
    answer: &mut [u64],
) -> u8
    ensures returned { result ≡ status answer.old (season_reading fold.now limit (tariff steps.now groups.now marks.now first each)).refusal }
    ensures answered { answer.new ≡ entries answer.old (of_fold (season_reading fold.now limit (tariff steps.now groups.now marks.now first each))) }
    ensures meant { result ≡ 0 → MeansAtCostIn season limit (tariff steps.now groups.now marks.now first each) fold.now (get_or answer.new 3 0) (get_or answer.new 4 0) }
{
    if answer.len() < ENTRIES {
        return SHORT;
    }
    let costs = lent(steps, groups, marks, first, each);
    Answer::from(read_fold::<Season>(fold, limit, &costs)).store(answer)
}

// The season unroller at a width limit: the length written.
#[unsafe(no_mangle)]
pub extern "C" fn runfold_unroll_season(
    fold: &[u8],
    limit: usize,
    out: &mut [u8],
    answer: &mut [u64],
) -> u8
    ensures returned { result ≡ status answer.old (written_answer (season_measured fold.now limit) (length out.old)).refusal }
    ensures answered { answer.new ≡ entries answer.old (of_written (written_answer (season_measured fold.now limit) (length out.old))) }
    ensures written { out.new ≡ kept answer.old out.old (written_output (season_measured fold.now limit) out.old) }
    ensures meant { result ≡ 0 → MeansIn season (at_most limit) fold.now (take (get_or answer.new 3 0) out.new) }
{
    if answer.len() < ENTRIES {
        return SHORT;
    }
    Answer::of_text(unroll::<Season>(fold, limit, out)).store(answer)
}

// The season folder, over one lent work slice: the length written and the fold's cost.
#[unsafe(no_mangle)]
pub extern "C" fn runfold_fold_season(
    run: &[u8],
    limit: usize,
    steps: &[u16],
    groups: &[u16],
    marks: &[u8],
    first: u16,
    each: u16,
    work: &mut [u32],
    out: &mut [u8],
    answer: &mut [u64],
) -> u8
    ensures returned { result ≡ status answer.old (season_answer (season_folding run.now limit (tariff steps.now groups.now marks.now first each)) (length work.old) (length out.old)).refusal }
    ensures answered { answer.new ≡ entries answer.old (of_folded (season_answer (season_folding run.now limit (tariff steps.now groups.now marks.now first each)) (length work.old) (length out.old))) }
    ensures written { out.new ≡ kept answer.old out.old (season_output (season_folding run.now limit (tariff steps.now groups.now marks.now first each)) (length work.old) out.old) }
    ensures cleared { work.new ≡ kept answer.old work.old (season_work (season_folding run.now limit (tariff steps.now groups.now marks.now first each)) (length work.old) work.old) }
    ensures cheapest { result ≡ 0 → CheapestWithin run.now limit (season_rules (tariff steps.now groups.now marks.now first each)) (take (get_or answer.new 3 0) out.new) (get_or answer.new 4 0) }
    ensures minimum { result ≡ 0 → MinimumTreeIn season run.now limit (tariff steps.now groups.now marks.now first each) (take (get_or answer.new 3 0) out.new) }
    ensures too_long { result ≡ 14 → CheapestOver (length out.old) run.now limit (season_rules (tariff steps.now groups.now marks.now first each)) }
{
    if answer.len() < ENTRIES {
        return SHORT;
    }
    let costs = lent(steps, groups, marks, first, each);
    Answer::from(fold_season(run, limit, &costs, work, out)).store(answer)
}
