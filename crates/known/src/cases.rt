// The known folds of docs/FORMAT.md, those that the checker computes too, no label marked.
use crate::runs::spell;
use case::{Case, Lent};
use format::Costs;
use print::UNIT;
use std::io;

// Other prices of repeats.
fn repeats(first: u16, each: u16) -> Costs<'static> {
    Costs {
        first,
        each,
        ..UNIT
    }
}

// The prices where every group costs 4, every step 1 and a repeat first.
fn dear(first: u16) -> Costs<'static> {
    Costs {
        groups: &[4; 256],
        first,
        ..UNIT
    }
}

// A word of letters that folds to these bytes at this cost.
fn letters(rt: &impl Print, name: &str, costs: Costs, fold: &[u8], cost: u64) -> io::Result<()> {
    let mut lent = [0u8; 80];
    let run = spell(name.as_bytes(), &mut lent);
    Case {
        costs,
        ..Case::unit(name, run, fold, cost)
    }
    .known(rt)
}

// A word of letters that is its own cheapest fold.
fn plain(rt: &impl Print, name: &str, limit: usize, cost: u64) -> io::Result<()> {
    let mut lent = [0u8; 80];
    let run = spell(name.as_bytes(), &mut lent);
    Case {
        limit,
        ..Case::unit(name, run, run, cost)
    }
    .known(rt)
}

// The folds that the checker computes too.
pub fn computed(rt: &impl Print) -> io::Result<()> {
    few_steps(rt)?;
    more_steps(rt)?;
    groups(rt)
}

fn few_steps(rt: &impl Print) -> io::Result<()> {
    Case::unit("the empty run", b"", b"", 0).known(rt)?;
    plain(rt, "a", 1024, 1)?;
    plain(rt, "a", 0, 1)?;
    plain(rt, "aa", 1024, 2)
}

fn more_steps(rt: &impl Print) -> io::Result<()> {
    let three = b"\x20\x00\x03\x00\x01\x10\x01\x21";
    let four = b"\x20\x00\x04\x00\x01\x10\x01\x21";
    let twice_two = b"\x20\x00\x02\x00\x02\x10\x01\x10\x01\x21";
    let four_and_bab = b"\x20\x00\x04\x00\x01\x10\x01\x21\x10\x02\x10\x01\x10\x02";
    letters(rt, "aaa", UNIT, three, 2)?;
    plain(rt, "aaa", 0, 3)?;
    letters(rt, "aaaa", repeats(0, 0), four, 1)?;
    letters(rt, "aaaa", repeats(1, 5), twice_two, 3)?;
    letters(rt, "aaaabab", UNIT, four_and_bab, 5)
}

fn groups(rt: &impl Print) -> io::Result<()> {
    let run = b"\x11\x05\x10\x01\x10\x01\x10\x01\x12\x11\x05\x10\x01\x10\x01\x10\x01\x12";
    let fold = b"\x20\x00\x02\x00\x01\x11\x05\x20\x00\x03\x00\x01\x10\x01\x21\x12\x21";
    let name = "group 05 holding aaa, twice";
    let three = Case::unit(name, run, fold, 4);
    three.known(rt)?;
    Case { limit: 1, ..three }.known(rt)?;
    let costs = dear(1);
    let three = Case::unit(name, run, fold, 7);
    Case { costs, ..three }.known(rt)?;
    let plain = b"\x11\x05\x10\x01\x12\x11\x05\x10\x01\x12";
    let folded = b"\x20\x00\x02\x00\x01\x11\x05\x10\x01\x12\x21";
    let name = "group 05 holding a, twice";
    let costs = dear(3);
    let one = Case::unit(name, plain, folded, 8);
    Case { costs, ..one }.known(rt)?;
    let costs = repeats(3, 0);
    let one = Case::unit(name, plain, plain, 4);
    Case { costs, ..one }.known(rt)
}

// Longer ones, which are run alone.
pub fn longer(rt: &impl Print) -> io::Result<()> {
    let five = b"\x20\x00\x02\x00\x05\x10\x01\x10\x02\x10\x02\x10\x03\x10\x01\x21";
    let other_five = b"\x20\x00\x02\x00\x05\x10\x01\x10\x02\x10\x01\x10\x01\x10\x02\x21";
    let three_and_four =
        b"\x20\x00\x02\x00\x03\x10\x01\x10\x02\x10\x01\x21\x20\x00\x02\x00\x04\x10\x02\x10\x01\x10\x01\x10\x02\x21";
    letters(rt, "abbcaabbca", UNIT, five, 6)?;
    plain(rt, "abbcaabbca", 4, 10)?;
    letters(rt, "abaababaab", UNIT, other_five, 6)?;
    letters(rt, "abaababaabbaab", UNIT, three_and_four, 9)
}

// Eight groups inside each other holding aaa, twice.
pub fn deep(rt: &impl Print) -> io::Result<()> {
    let run =
        b"\x11\x01\x11\x01\x11\x01\x11\x01\x11\x01\x11\x01\x11\x01\x11\x01\x10\x01\x10\x01\x10\x01\x12\x12\x12\x12\x12\x12\x12\x12\x11\x01\x11\x01\x11\x01\x11\x01\x11\x01\x11\x01\x11\x01\x11\x01\x10\x01\x10\x01\x10\x01\x12\x12\x12\x12\x12\x12\x12\x12";
    let fold =
        b"\x20\x00\x02\x00\x01\x11\x01\x11\x01\x11\x01\x11\x01\x11\x01\x11\x01\x11\x01\x11\x01\x20\x00\x03\x00\x01\x10\x01\x21\x12\x12\x12\x12\x12\x12\x12\x12\x21";
    Case::unit("eight groups deep, twice", run, fold, 11).known(rt)
}

// 1,024 a's, the most nodes that there may be.
pub fn thousand(rt: &impl Print) -> io::Result<()> {
    let mut costs = [0u32; 524810];
    let mut choices = [0u32; 524810];
    thousand_in(rt, &mut costs, &mut choices)
}

fn thousand_in(rt: &impl Print, costs: &mut [u32], choices: &mut [u32]) -> io::Result<()> {
    let mut run = [0u8; 2048];
    let run = spell(&[b'a'; 1024], &mut run);
    let lent = Lent {
        costs,
        choices,
        out: &mut [0; 16],
        text: &mut [0; 2060],
    };
    Case::unit("1024 a's", run, b"\x20\x04\x00\x00\x01\x10\x01\x21", 2).known_in(rt, lent)
}
