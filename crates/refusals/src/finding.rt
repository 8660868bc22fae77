// Index builder and finder: a fold's own refusals, which they have in common with the fold reader, and 14, 17 and 16.
use crate::entries::{FILLED, Index, still_filled};
use crate::lines::{example, told};
use format::{Reason, Refusal};
use index::build_index;
use std::io;

// abb as a fold of two items. Its index has two entries in either slice.
const ABB: &[u8] = b"\x10\x01\x20\x00\x02\x00\x01\x10\x02\x21";

// The index of abb, with a third entry in either slice that stands for the end, at 10 and 3. The first of each is also the index of
// one step.
const OF_ABB: Index<'static> = Index {
    offsets: &[0, 2, 10],
    before: &[0, 1, 3],
};

// The index builder, with filled slices.
fn by_builder(
    rt: &impl Print,
    fold: &[u8],
    offsets: &mut [u32],
    before: &mut [u32],
    expected: Refusal,
) -> io::Result<()> {
    let refused = build_index(fold, offsets, before).err();
    let right = still_filled(offsets, 0) && still_filled(before, 0);
    told(rt, " index builder", refused, expected, right)
}

fn by_finder(
    rt: &impl Print,
    fold: &[u8],
    index: Index,
    position: u64,
    expected: Refusal,
) -> io::Result<()> {
    let refused = index.find(fold, position).err();
    told(rt, " finder", refused, expected, true)
}

// A fold's own refusal. It comes before 17 and 16: the finder gets the index of no fold and a position past every end.
pub fn by_builder_and_finder(rt: &impl Print, fold: &[u8], expected: Refusal) -> io::Result<()> {
    let mut offsets = [FILLED; 4];
    let mut before = [FILLED; 4];
    by_builder(rt, fold, &mut offsets, &mut before, expected)?;
    print!(rt; ",")?;
    let index = Index {
        offsets: &offsets,
        before: &before,
    };
    by_finder(rt, fold, index, u64::MAX, expected)
}

// The index builder with as many entries as are lent: a line of its own.
fn by_cramped_builder(
    rt: &impl Print,
    fold: &[u8],
    offsets: &mut [u32],
    before: &mut [u32],
    expected: Refusal,
) -> io::Result<()> {
    example(rt, expected.reason, fold)?;
    print!(rt; ", entries {} and {}:", offsets.len(), before.len())?;
    by_builder(rt, fold, offsets, before, expected)?;
    println!(rt)
}

// The finder with an index, at a position: a line of its own.
fn unfound(
    rt: &impl Print,
    fold: &[u8],
    index: Index,
    position: u64,
    reason: Reason,
) -> io::Result<()> {
    example(rt, reason, fold)?;
    print!(rt; ", {index}, position {position}:")?;
    by_finder(rt, fold, index, position, reason.at(0))?;
    println!(rt)
}

// The same by 17, with two entries in either slice.
fn with_two(
    rt: &impl Print,
    fold: &[u8],
    offsets: [u32; 2],
    before: [u32; 2],
    position: u64,
) -> io::Result<()> {
    let index = Index {
        offsets: &offsets,
        before: &before,
    };
    unfound(rt, fold, index, position, Reason::NotTheIndex)
}

// Refusals 14, 17 and 16: their examples, which are of one step, then abb, and the empty fold.
pub fn positions(rt: &impl Print) -> io::Result<()> {
    few_entries(rt)?;
    other_lengths(rt)?;
    other_numbers(rt)?;
    past_the_end(rt)?;
    empty_fold(rt)
}

// 14: an entry less than are to be written, in either slice. A refusal of the fold comes before it, even behind two items.
fn few_entries(rt: &impl Print) -> io::Result<()> {
    let few = Reason::ShortOutput.at(0);
    let mut one = [FILLED; 1];
    let mut other = [FILLED; 1];
    let mut two = [FILLED; 2];
    by_cramped_builder(rt, b"\x10\x01", &mut [], &mut one, few)?;
    by_cramped_builder(rt, ABB, &mut one, &mut two, few)?;
    by_cramped_builder(rt, ABB, &mut two, &mut one, few)?;
    let unknown = Reason::UnknownCommand.at(4);
    by_cramped_builder(rt, b"\x10\x01\x10\x02\x13", &mut one, &mut other, unknown)
}

// 17: both slices or one of them an entry short, an entry long, and no entries.
fn other_lengths(rt: &impl Print) -> io::Result<()> {
    let none = OF_ABB.front(0, 0);
    unfound(rt, b"\x10\x01", none, 0, Reason::NotTheIndex)?;
    for (offsets, before) in [(1, 1), (1, 2), (2, 1), (3, 3), (3, 2), (2, 3), (0, 0)] {
        let index = OF_ABB.front(offsets, before);
        unfound(rt, ABB, index, 0, Reason::NotTheIndex)?;
    }
    Ok(())
}

// 17: one number off, the two slices changed about, and the index of bba as a fold of two items.
fn other_numbers(rt: &impl Print) -> io::Result<()> {
    for (offsets, before) in [
        ([1, 2], [0, 1]),
        ([0, 3], [0, 1]),
        ([0, 2], [1, 1]),
        ([0, 2], [0, 2]),
        ([0, 1], [0, 2]),
        ([0, 8], [0, 2]),
    ] {
        with_two(rt, ABB, offsets, before, 0)?;
    }
    Ok(())
}

// 16: at the node total, at 2^32 and at 2^64 - 1. 17 comes before it, and a refused fold before both.
fn past_the_end(rt: &impl Print) -> io::Result<()> {
    unfound(rt, b"\x10\x01", OF_ABB.front(1, 1), 1, Reason::NoSuchNode)?;
    for position in [3, 1 << 32, u64::MAX] {
        unfound(rt, ABB, OF_ABB.front(2, 2), position, Reason::NoSuchNode)?;
    }
    let short = OF_ABB.front(2, 1);
    unfound(rt, ABB, short, 3, Reason::NotTheIndex)?;
    with_two(rt, ABB, [0, 2], [0, 2], u64::MAX)?;
    unfound(rt, b"\x13", short, u64::MAX, Reason::UnknownCommand)
}

// The empty fold, whose index is empty and whose run has no position.
fn empty_fold(rt: &impl Print) -> io::Result<()> {
    for (offsets, before, position, reason) in [
        (0, 0, 0, Reason::NoSuchNode),
        (0, 0, u64::MAX, Reason::NoSuchNode),
        (1, 1, 0, Reason::NotTheIndex),
        (1, 0, 0, Reason::NotTheIndex),
        (0, 1, u64::MAX, Reason::NotTheIndex),
    ] {
        let index = OF_ABB.front(offsets, before);
        unfound(rt, b"", index, position, reason)?;
    }
    Ok(())
}
