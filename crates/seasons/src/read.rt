// Season runs and season folds, as they are read and unrolled.
use format::{FoldCounts, Reason, Refusal, RunCounts, Season};
use harness::{fill_bytes, unrolled, untouched};
use print::{Refused, UNIT, difference, judge};
use reader::{read_fold, read_run};
use refusals::{example, row, told};
use std::io;
use unroller::unroll;

// A run that is accepted, of so many steps.
fn accepted(rt: &impl Print, name: &str, run: &[u8], steps: usize) -> io::Result<()> {
    let read = read_run::<Season>(run);
    let Ok(counts) = read else {
        println!(rt; "{name}: refused {}", Refused(read.err()))?;
        return difference(rt, name);
    };
    println!(rt;
        "{name}: nodes {}, steps {}, depth {}",
        counts.nodes, counts.steps, counts.depth
    )?;
    let expected = RunCounts {
        nodes: steps,
        steps,
        depth: 0,
    };
    judge(rt, name, counts == expected)
}

fn refused_run(rt: &impl Print, run: &[u8], expected: Refusal) -> io::Result<()> {
    let refused = read_run::<Season>(run).err();
    example(rt, expected.reason, run)?;
    told(rt, ": season run reader", refused, expected, true)?;
    println!(rt)
}

// A group is refused at its `11`, whether or not its label is there; a repeat before it by 2.
pub fn runs(rt: &impl Print) -> io::Result<()> {
    let repeat = b"\x20\x00\x02\x00\x01\x11\x05\x12\x21";
    accepted(rt, "the empty run", b"", 0)?;
    accepted(rt, "aaa", b"\x10\x01\x10\x01\x10\x01", 3)?;
    refused_run(rt, b"\x11", Reason::GroupInSeason.at(0))?;
    refused_run(rt, b"\x10\x07\x11\x05", Reason::GroupInSeason.at(2))?;
    refused_run(rt, repeat, Reason::RepeatInRun.at(0))?;
    refused_run(rt, b"\x10\x07\x10", Reason::Unfinished.at(3))?;
    refused_run(rt, b"\x10\x07\x12", Reason::WrongClose.at(2))?;
    refused_run(rt, b"\x22", Reason::UnknownCommand.at(0))
}

// A fold that is read at the largest limit: the steps of its run, two bytes each, and its cost.
fn reads(
    rt: &impl Print,
    name: &str,
    fold: &[u8],
    steps: usize,
    length: usize,
    cost: u64,
) -> io::Result<()> {
    let read = read_fold::<Season>(fold, 32, &UNIT);
    let Ok(counts) = read else {
        println!(rt; "{name}: refused {}", Refused(read.err()))?;
        return difference(rt, name);
    };
    println!(rt;
        "{name}: nodes {}, length {}, cost {}",
        counts.nodes, counts.length, counts.cost
    )?;
    let expected = FoldCounts {
        nodes: steps,
        length,
        cost,
        steps,
        depth: 0,
    };
    judge(rt, name, counts == expected)
}

pub fn folds(rt: &impl Print) -> io::Result<()> {
    let three = b"\x20\x00\x03\x00\x01\x10\x01\x21";
    let most = b"\x20\xff\xff\x00\x01\x10\x01\x21";
    reads(rt, "the empty fold", b"", 0, 0, 0)?;
    reads(rt, "3 a", three, 3, 6, 2)?;
    reads(rt, "65535 a", most, 65535, 131070, 2)
}

// A fold that is refused at a limit, by the season reader and by the season unroller, which leaves the output as it was.
fn refused_fold(rt: &impl Print, fold: &[u8], limit: usize, expected: Refusal) -> io::Result<()> {
    let mut out = [0; 40];
    fill_bytes(&mut out);
    let by_reader = read_fold::<Season>(fold, limit, &UNIT).err();
    let by_unroller = unroll::<Season>(fold, limit, &mut out).err();
    row(rt, expected.reason, fold, limit)?;
    told(rt, ": season reader", by_reader, expected, true)?;
    let right = untouched(&out, 0);
    told(rt, ", season unroller", by_unroller, expected, right)?;
    println!(rt)
}

// Each limit of seasons, and a group in a repeat, before the end that is missing there.
pub fn refused_folds(rt: &impl Print) -> io::Result<()> {
    let wide = b"\x20\x00\x02\x00\x21\x10\x07\x21";
    let untrue = b"\x20\x00\x02\x00\x20\x10\x07\x21";
    let group = b"\x20\x00\x02\x00\x01\x11";
    let too_many = b"\x10\x01\x20\xff\xff\x00\x01\x10\x01\x21";
    refused_fold(rt, b"\x11", 33, Reason::LimitTooHigh.at(0))?;
    refused_fold(rt, wide, 32, Reason::TooWide.at(0))?;
    refused_fold(rt, untrue, 32, Reason::UntrueWidth.at(7))?;
    refused_fold(rt, group, 32, Reason::GroupInSeason.at(5))?;
    refused_fold(rt, too_many, 32, Reason::TooManyNodes.at(9))
}

// A fold that is unrolled to this run, with the bytes behind it as they were.
fn unrolls(rt: &impl Print, name: &str, fold: &[u8], run: &[u8], out: &mut [u8]) -> io::Result<()> {
    fill_bytes(out);
    let answer = unroll::<Season>(fold, 32, out);
    let length = answer.unwrap_or(0);
    println!(rt; "{name} in {}: length {length}", out.len())?;
    judge(rt, name, unrolled(answer, run, out))
}

pub fn unrolled_folds(rt: &impl Print) -> io::Result<()> {
    let fold = b"\x20\x00\x03\x00\x01\x10\x01\x21";
    let run = b"\x10\x01\x10\x01\x10\x01";
    unrolls(rt, "unrolled 3 a", fold, run, &mut [0; 6])?;
    unrolls(rt, "unrolled 3 a", fold, run, &mut [0; 8])?;
    let mut five = [0; 5];
    fill_bytes(&mut five);
    let refused = unroll::<Season>(fold, 32, &mut five).err();
    let expected = Reason::ShortOutput.at(0);
    row(rt, expected.reason, fold, 32)?;
    print!(rt; ", output 5: ")?;
    told(
        rt,
        "season unroller",
        refused,
        expected,
        untouched(&five, 0),
    )?;
    println!(rt)
}

// As many steps as a season may have, read and unrolled, and one more.
pub fn most_steps(rt: &impl Print, most: &[u8], more: &[u8], out: &mut [u8]) -> io::Result<()> {
    let fold = b"\x20\xff\xff\x00\x01\x10\x10\x21";
    accepted(rt, "65535 steps", most, 65535)?;
    unrolls(rt, "unrolled 65535 steps", fold, most, out)?;
    refused_run(rt, more, Reason::TooManyNodes.at(131070))
}
