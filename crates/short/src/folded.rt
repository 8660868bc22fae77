// Runs and the short forms of their cheapest folds, as the short folder writes them: every step and group costs 1, each 0.
use folder::fold_short;
use format::Costs;
use harness::{begins, fill_bytes, untouched};
use print::{Refused, UNIT, difference, judge};
use std::io;

// A run that folds to this short form at this cost; the work that it needs is left cleared, and what is lent beyond as it was.
fn folds_to(
    rt: &impl Print,
    name: &str,
    run: &[u8],
    first: u16,
    short: &[u8],
    cost: u64,
) -> io::Result<()> {
    let tariff = Costs { first, ..UNIT };
    let mut costs = [7; 60];
    let mut choices = [7; 60];
    let mut out = [0; 40];
    fill_bytes(&mut out);
    let answer = fold_short(run, 1024, &tariff, &mut costs, &mut choices, &mut out);
    print!(rt; "{name}, first {first}: ")?;
    let Ok(written) = answer else {
        println!(rt; "refused {}", Refused(answer.err()))?;
        return difference(rt, name);
    };
    println!(rt; "cost {}, short {}", written.cost, written.length)?;
    let right = begins(&out, written.length, short)
        && untouched(&out, written.length)
        && written.cost == cost
        && (costs[0], costs[59]) == (0, 7)
        && (choices[0], choices[59]) == (0, 7);
    judge(rt, name, right)
}

// The short form of the folder's fold, also where another fold has a shorter one: of aaaa at first 0, one repeat and not two.
pub fn folded(rt: &impl Print) -> io::Result<()> {
    let aaa = b"\x10\x01\x10\x01\x10\x01";
    folds_to(rt, "aaa", aaa, 1, b"\x22\x03\x01\x10\x01\x21", 2)?;
    let aaaa = b"\x10\x01\x10\x01\x10\x01\x10\x01";
    folds_to(rt, "aaaa", aaaa, 0, b"\x22\x04\x01\x10\x01\x21", 1)?;
    folds_to(rt, "aa", b"\x10\x01\x10\x01", 1, b"\x10\x01\x10\x01", 2)?;
    let twice = b"\x11\x05\x10\x01\x10\x01\x10\x01\x12\x11\x05\x10\x01\x10\x01\x10\x01\x12";
    let nested = b"\x22\x02\x01\x11\x05\x22\x03\x01\x10\x01\x21\x12\x21";
    folds_to(rt, "group 05 holding aaa, twice", twice, 1, nested, 4)
}
