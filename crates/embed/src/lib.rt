// The static library's boundary for C and Rust: the readers, the unroller, the folder, the index and the finder over numbers and
// lent slices; in short.rt the short family, in seasons.rt whole seasons. Every answer is seven numbers in a lent slice: refusal,
// place and five values, which readers, unroller and folder use for nodes, length, cost, steps and depth; 0 where the function
// gives no such value.
#![tactic(auto, using(crate::proofs::Entries::lent))]

mod answer;
mod seasons;
mod short;

ghost use Rattle.std.specs.Prelude.{◌≡◌, length, get_or, take, drop};
ghost use Rattle.format.specs.Limits.{tariff, at_most};
ghost use Rattle.format.specs.Readings.{format_rules, run_reading, measured, fold_alone, fold_reading};
ghost use Rattle.format.specs.Meaning.{Means, MeansAtCost};
ghost use Rattle.format.specs.Parts.{part_of};
ghost use Rattle.optimum.specs.Demands.{CheapestWithin, CheapestOver, MinimumTree};
ghost use Rattle.format.specs.Output.{written_answer, written_output};
ghost use Rattle.index.specs.Index.{index_of, index_answer, index_output};
ghost use Rattle.index.specs.Finding.{find_answer, AtPosition};
ghost use Rattle.folder.specs.Folding.{folding, fold_answer, fold_output, fold_work};
ghost use Rattle.embed.specs.Answers.{status, kept, entries, of_run, of_fold, of_written, of_folded, of_indexed, of_found, found_in};

use answer::{Answer, ENTRIES, SHORT, lent};
use folder::fold;
use format::Format;
use index::{build_index, find};
use reader::{part, read_fold, read_run};
use unroller::unroll;

// Stays: parameters one by one and answers as numbers, in all functions of this crate, since C calls them.
// The run reader: the number of nodes, how many of them are steps, and the most groups open together.
#[unsafe(no_mangle)]
pub extern "C" fn runfold_read_run(run: &[u8], answer: &mut [u64]) -> u8
    ensures returned { result ≡ status answer.old (run_reading run.now).refusal }
    ensures answered { answer.new ≡ entries answer.old (of_run (run_reading run.now)) }
{
    if answer.len() < ENTRIES {
        return SHORT;
    }
    Answer::from(read_run::<Format>(run)).store(answer)
}

// The part of a node: how many bytes from the offset on are the step or group that starts there, with all it holds; 0 where
// the run is refused or no node starts there.
#[unsafe(no_mangle)]
pub extern "C" fn runfold_part(run: &[u8], at: usize) -> usize
    ensures long { result ≡ length (part_of run.now at) }
    ensures there { take result (drop at run.now) ≡ part_of run.now at }
{
    part(run, at).len()
}

// The fold reader at a width limit and costs, of which `steps` and `groups` are the tables and `marks` says which labels may stand
// in no repeat: the nodes and the bytes of the run, the fold's cost, and the run's steps and depth.
#[unsafe(no_mangle)]
pub extern "C" fn runfold_read_fold(
    fold: &[u8],
    limit: usize,
    steps: &[u16],
    groups: &[u16],
    marks: &[u8],
    first: u16,
    each: u16,
    answer: &mut [u64],
) -> u8
    ensures returned { result ≡ status answer.old (fold_reading fold.now limit (tariff steps.now groups.now marks.now first each)).refusal }
    ensures answered { answer.new ≡ entries answer.old (of_fold (fold_reading fold.now limit (tariff steps.now groups.now marks.now first each))) }
    ensures meant { result ≡ 0 → MeansAtCost limit (tariff steps.now groups.now marks.now first each) fold.now (get_or answer.new 3 0) (get_or answer.new 4 0) }
{
    if answer.len() < ENTRIES {
        return SHORT;
    }
    let costs = lent(steps, groups, marks, first, each);
    Answer::from(read_fold::<Format>(fold, limit, &costs)).store(answer)
}

// The unroller at a width limit: the length written.
#[unsafe(no_mangle)]
pub extern "C" fn runfold_unroll(
    fold: &[u8],
    limit: usize,
    out: &mut [u8],
    answer: &mut [u64],
) -> u8
    ensures returned { result ≡ status answer.old (written_answer (measured fold.now limit) (length out.old)).refusal }
    ensures answered { answer.new ≡ entries answer.old (of_written (written_answer (measured fold.now limit) (length out.old))) }
    ensures written { out.new ≡ kept answer.old out.old (written_output (measured fold.now limit) out.old) }
    ensures meant { result ≡ 0 → Means (at_most limit) fold.now (take (get_or answer.new 3 0) out.new) }
{
    if answer.len() < ENTRIES {
        return SHORT;
    }
    Answer::of_text(unroll::<Format>(fold, limit, out)).store(answer)
}

// The folder at a width limit and the same costs, over two lent work slices: the length written and the fold's cost.
#[unsafe(no_mangle)]
pub extern "C" fn runfold_fold(
    run: &[u8],
    limit: usize,
    steps: &[u16],
    groups: &[u16],
    marks: &[u8],
    first: u16,
    each: u16,
    costs: &mut [u32],
    choices: &mut [u32],
    out: &mut [u8],
    answer: &mut [u64],
) -> u8
    ensures returned { result ≡ status answer.old (fold_answer (folding run.now limit (tariff steps.now groups.now marks.now first each)) (length costs.old) (length choices.old) (length out.old)).refusal }
    ensures answered { answer.new ≡ entries answer.old (of_folded (fold_answer (folding run.now limit (tariff steps.now groups.now marks.now first each)) (length costs.old) (length choices.old) (length out.old))) }
    ensures written { out.new ≡ kept answer.old out.old (fold_output (folding run.now limit (tariff steps.now groups.now marks.now first each)) (length costs.old) (length choices.old) out.old) }
    ensures costs_cleared { costs.new ≡ kept answer.old costs.old (fold_work (folding run.now limit (tariff steps.now groups.now marks.now first each)) (length costs.old) (length choices.old) costs.old) }
    ensures choices_cleared { choices.new ≡ kept answer.old choices.old (fold_work (folding run.now limit (tariff steps.now groups.now marks.now first each)) (length costs.old) (length choices.old) choices.old) }
    ensures cheapest { result ≡ 0 → CheapestWithin run.now limit (format_rules (tariff steps.now groups.now marks.now first each)) (take (get_or answer.new 3 0) out.new) (get_or answer.new 4 0) }
    ensures minimum { result ≡ 0 → MinimumTree run.now limit (tariff steps.now groups.now marks.now first each) (take (get_or answer.new 3 0) out.new) }
    ensures too_long { result ≡ 14 → CheapestOver (length out.old) run.now limit (format_rules (tariff steps.now groups.now marks.now first each)) }
{
    if answer.len() < ENTRIES {
        return SHORT;
    }
    let tariff = lent(steps, groups, marks, first, each);
    Answer::from(fold(run, limit, &tariff, costs, choices, out)).store(answer)
}

// The builder of a fold's index, into two lent slices: the number of entries.
#[unsafe(no_mangle)]
pub extern "C" fn runfold_index(
    fold: &[u8],
    offsets: &mut [u32],
    before: &mut [u32],
    answer: &mut [u64],
) -> u8
    ensures returned { result ≡ status answer.old (index_answer (fold_alone fold.now) (index_of fold.now) (length offsets.old) (length before.old)).refusal }
    ensures answered { answer.new ≡ entries answer.old (of_indexed (index_answer (fold_alone fold.now) (index_of fold.now) (length offsets.old) (length before.old))) }
    ensures offsets_written { offsets.new ≡ kept answer.old offsets.old (index_output (fold_alone fold.now) (index_of fold.now) (length offsets.old) (length before.old) (index_of fold.now).offsets offsets.old) }
    ensures before_written { before.new ≡ kept answer.old before.old (index_output (fold_alone fold.now) (index_of fold.now) (length offsets.old) (length before.old) (index_of fold.now).before before.old) }
{
    if answer.len() < ENTRIES {
        return SHORT;
    }
    Answer::of_index(build_index(fold, offsets, before)).store(answer)
}

// The finder, with the fold's index and a position in its run: the node's label and command, and that command's offset in the
// fold.
#[unsafe(no_mangle)]
pub extern "C" fn runfold_find(
    fold: &[u8],
    offsets: &[u32],
    before: &[u32],
    position: u64,
    answer: &mut [u64],
) -> u8
    ensures returned { result ≡ status answer.old (find_answer fold.now offsets.now before.now position).refusal }
    ensures answered { answer.new ≡ entries answer.old (of_found (find_answer fold.now offsets.now before.now position)) }
    ensures right { result ≡ 0 → AtPosition fold.now position (found_in answer.new) }
{
    if answer.len() < ENTRIES {
        return SHORT;
    }
    Answer::from(find(fold, offsets, before, position)).store(answer)
}
