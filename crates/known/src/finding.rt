// Nodes found by their positions: the index of a fold is built, and by it every position of the run is found and compared with
// what the unroller writes.
use format::{Format, Reason, Refusal};
use index::{FoundNode, build_index};
use print::{Bytes, difference, judge};
use refusals::{FILLED, Index, still_filled};
use std::io;
use unroller::unroll;

// Whether the finder's answer is the node with this command and label: it has them, and they stand in the fold at its offset.
fn is_node(found: Result<FoundNode, Refusal>, fold: &[u8], command: u8, label: u8) -> bool {
    let Ok(node) = found else {
        return false;
    };
    node.command == command
        && node.label == label
        && fold
            .get(node.offset..)
            .unwrap_or(&[])
            .starts_with(&[command, label])
}

// How many positions are right, from 0 up to the first that is not: the nodes of a run stand in its bytes one after the other,
// and a close is none.
fn right_positions(fold: &[u8], index: Index, run: &[u8]) -> usize {
    let mut position: usize = 0;
    let mut rest = run;
    while let [command, behind @ ..] = rest {
        rest = behind;
        if *command != Format::GROUP_END {
            let [label, behind @ ..] = rest else {
                return position;
            };
            let found = index.find(fold, position as u64);
            if !is_node(found, fold, *command, *label) {
                return position;
            }
            position += 1;
            rest = behind;
        }
    }
    position
}

// The same for the run that the unroller writes. The text has room for 1,024 steps.
fn right_of(fold: &[u8], index: Index) -> usize {
    let mut text = [0u8; 2048];
    let length = unroll::<Format>(fold, 1024, &mut text).unwrap_or(0);
    right_positions(fold, index, text.get(..length).unwrap_or(&[]))
}

// Prints what the finder answers at a position.
fn show_node(rt: &impl Print, fold: &[u8], index: Index, position: u64) -> io::Result<()> {
    print!(rt; ", position {position} ")?;
    match index.find(fold, position) {
        Ok(node) => {
            let bytes = [node.command, node.label];
            println!(rt; "is {} at offset {}", Bytes(&bytes), node.offset)
        }
        Err(refusal) => println!(rt; "refused by {}", refusal.reason.number()),
    }
}

// The entries that are lent in either slice: more than any of the folds has.
const LENT: usize = 8;

// What is lent for an index, and how many entries of it the builder has written.
#[derive(Clone, Copy)]
struct Built {
    offsets: [u32; LENT],
    before: [u32; LENT],
    entries: usize,
}

impl Built {
    // The first n entries of either slice.
    fn front(&self, n: usize) -> Index<'_> {
        let all = Index {
            offsets: &self.offsets,
            before: &self.before,
        };
        all.front(n, n)
    }

    // Whether nothing was written behind the entries.
    fn bounded(&self) -> bool {
        still_filled(&self.offsets, self.entries) && still_filled(&self.before, self.entries)
    }

    // Whether the finder, with the first n entries, refuses for this reason, at no place.
    fn refuses(&self, fold: &[u8], n: usize, position: u64, reason: Reason) -> bool {
        self.front(n).find(fold, position).err() == Some(reason.at(0))
    }

    // Whether the positions at the node total and at 2^64 - 1 are refused, and slices of an entry more or an entry less.
    fn ends(&self, fold: &[u8], nodes: usize) -> bool {
        let n = self.entries;
        self.refuses(fold, n, nodes as u64, Reason::NoSuchNode)
            && self.refuses(fold, n, u64::MAX, Reason::NoSuchNode)
            && self.refuses(fold, n.saturating_add(1), 0, Reason::NotTheIndex)
            && (n == 0 || self.refuses(fold, n - 1, 0, Reason::NotTheIndex))
    }

    // Whether an index is refused in which one number is one more or one less, whichever it is in either slice.
    fn numbers_count(&self, fold: &[u8]) -> bool {
        for i in 0..self.entries.min(LENT) {
            let mut other_offset = *self;
            let mut other_before = *self;
            other_offset.offsets[i] ^= 1;
            other_before.before[i] ^= 1;
            for other in [other_offset, other_before] {
                if !other.refuses(fold, self.entries, 0, Reason::NotTheIndex) {
                    return false;
                }
            }
        }
        true
    }
}

// A fold, the nodes of its run, and the position whose answer is printed.
fn found(rt: &impl Print, name: &str, fold: &[u8], nodes: usize, position: u64) -> io::Result<()> {
    let mut offsets = [FILLED; LENT];
    let mut before = [FILLED; LENT];
    let Ok(entries) = build_index(fold, &mut offsets, &mut before) else {
        return difference(rt, name);
    };
    let built = Built {
        offsets,
        before,
        entries,
    };
    let index = built.front(entries);
    let right = right_of(fold, index);
    print!(rt; "found in {name}: {index}, right at {right} positions of {nodes}")?;
    show_node(rt, fold, index, position)?;
    let right = right == nodes
        && built.bounded()
        && built.ends(fold, nodes)
        && built.numbers_count(fold);
    judge(rt, name, right)
}

// The folds. That of width 2 has refusal 7 at limit 1, and none here, where no limit is taken.
pub fn finding(rt: &impl Print) -> io::Result<()> {
    let group = b"\x20\x00\x02\x00\x01\x11\x05\x20\x00\x03\x00\x01\x10\x01\x21\x12\x21";
    let wide = b"\x20\x00\x02\x00\x02\x10\x07\x10\x07\x21";
    found(rt, "the empty fold", b"", 0, 0)?;
    found(rt, "aaa", b"\x20\x00\x03\x00\x01\x10\x01\x21", 3, 1)?;
    found(rt, "group 05 holding aaa, twice", group, 8, 4)?;
    found(rt, "a repeat of width 2", wide, 4, 3)?;
    longer(rt)
}

// The example of docs/FORMAT.md. Next ab; three times the sequence of c, group 05 with ab twice in it, and step 04 twice; group 06
// with step 12 and twice group 07 with c in it; and step 10. The labels 12 and 10 look like commands. Then as many repeats inside
// each other as there may be, which make 1,024 nodes of one step, and as many groups.
fn longer(rt: &impl Print) -> io::Result<()> {
    let example =
        b"\x10\x09\x20\x00\x02\x00\x02\x11\x05\x20\x00\x03\x00\x01\x10\x01\x21\x12\x10\x02\x21\x11\x06\x10\x03\x12";
    let mixed =
        b"\x10\x01\x10\x02\x20\x00\x03\x00\x04\x10\x03\x11\x05\x20\x00\x02\x00\x02\x10\x01\x10\x02\x21\x12\x20\x00\x02\x00\x01\x10\x04\x21\x21\x11\x06\x10\x12\x20\x00\x02\x00\x01\x11\x07\x10\x03\x12\x21\x12\x10\x10";
    let repeats =
        b"\x20\x00\x02\x02\x00\x20\x00\x02\x01\x00\x20\x00\x02\x00\x80\x20\x00\x02\x00\x40\x20\x00\x02\x00\x20\x20\x00\x02\x00\x10\x20\x00\x02\x00\x08\x20\x00\x02\x00\x04\x20\x00\x02\x00\x02\x20\x00\x02\x00\x01\x10\x01\x21\x21\x21\x21\x21\x21\x21\x21\x21\x21";
    let groups =
        b"\x11\x01\x11\x02\x11\x03\x11\x04\x11\x05\x11\x06\x11\x07\x11\x08\x20\x00\x03\x00\x01\x10\x09\x21\x12\x10\x0a\x12\x12\x12\x12\x12\x12\x12";
    found(rt, "the example of docs/FORMAT.md", example, 13, 9)?;
    found(rt, "steps, repeats and groups", mixed, 33, 15)?;
    found(rt, "ten repeats inside each other", repeats, 1024, 512)?;
    found(rt, "eight groups inside each other", groups, 12, 9)
}
