// The index of a fold and the finder: which node stands at a position of the run, without unrolling the fold. An index is kept
// beside the fold: for each of its outermost items the item's offset and the nodes of the run before it.
#![tactic(auto)]

mod compare;
mod descend;
mod entries;
mod pass;
mod read;
mod search;

ghost use Rattle.std.specs.Prelude.{◌≡◌, length, IfOk};
ghost use Rattle.format.specs.Readings.{fold_alone};
ghost use Rattle.index.specs.Index.{index_of, index_answer, index_output};
ghost use Rattle.index.specs.Finding.{find_answer, AtPosition};
ghost use Rattle.index.specs.Answers.{indexed_said, node_said, found_said};

use compare::is_index;
use descend::descend;
use entries::{count_entries, write_entries};
use format::{Reason, Refusal};
use read::ReadFold;
use reader::read_alone;
use search::last_up_to;

// A node that was found: its label and its command, and where in the fold that command stands.
#[derive(Clone, Copy, Debug, PartialEq, Eq)]
pub struct FoundNode {
    pub label: u8,
    pub command: u8,
    pub offset: usize,
}

// The builder of the index: the fold's own refusals, then 14 where a slice is shorter than the index; or the number of entries,
// which it writes in front of both slices.
// Stays: offsets and nodes are two lent slices and no slice of pairs, since the C interface lends them so and the clauses name both.
pub fn build_index(fold: &[u8], offsets: &mut [u32], before: &mut [u32]) -> Result<usize, Refusal>
    ensures answered { indexed_said result ≡ index_answer (fold_alone fold.now) (index_of fold.now) (length offsets.old) (length before.old) }
    ensures offsets_written { offsets.new ≡ index_output (fold_alone fold.now) (index_of fold.now) (length offsets.old) (length before.old) (index_of fold.now).offsets offsets.old }
    ensures before_written { before.new ≡ index_output (fold_alone fold.now) (index_of fold.now) (length offsets.old) (length before.old) (index_of fold.now).before before.old }
{
    let read = ReadFold {
        bytes: fold,
        counts: read_alone(fold, false)?,
    };
    // Counted before an entry is written: after 14 both slices are as they were.
    let entries = count_entries(&read);
    if offsets.len() < entries || before.len() < entries {
        return Err(Reason::ShortOutput.at(0));
    }
    write_entries(&read, entries, offsets, before);
    Ok(entries)
}

// The finder: the fold's own refusals, then 17 where the slices are not the fold's index, then 16 where the run has no node at
// the position; or the node there and the command of the fold that writes it.
pub fn find(
    fold: &[u8],
    offsets: &[u32],
    before: &[u32],
    position: u64,
) -> Result<FoundNode, Refusal>
    ensures answered { found_said result ≡ find_answer fold.now offsets.now before.now position }
    ensures right { IfOk result (λ w. AtPosition fold.now position (node_said w)) }
{
    let read = ReadFold {
        bytes: fold,
        counts: read_alone(fold, false)?,
    };
    if !is_index(&read, offsets, before) {
        return Err(Reason::NotTheIndex.at(0));
    }
    if read.counts.nodes as u64 <= position {
        return Err(Reason::NoSuchNode.at(0));
    }
    let ahead = position as usize;
    let i = last_up_to(before, ahead);
    let offset = descend(fold, offsets[i] as usize, ahead - before[i] as usize);
    Ok(FoundNode {
        label: fold[offset + 1],
        command: fold[offset],
        offset,
    })
}
