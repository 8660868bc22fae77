// Refusals 1 to 10: those of the commands of a run or a fold.
use crate::finding::by_builder_and_finder;
use crate::lines::{by_fold_reader, by_roomy_folder, by_run_reader, by_unroller, example, row};
use format::{Format, Reason, Refusal};
use print::UNIT;
use std::io;

// The example of a refusal among runs.
fn refused_run(rt: &impl Print, run: &[u8], expected: Refusal) -> io::Result<()> {
    row(rt, expected.reason, run, 1024)?;
    by_run_reader(rt, run, expected)?;
    print!(rt; ",")?;
    by_roomy_folder(rt, run, 1024, &UNIT, expected)?;
    println!(rt)
}

// A fold by those that take a limit.
fn by_limited(rt: &impl Print, fold: &[u8], limit: usize, expected: Refusal) -> io::Result<()> {
    row(rt, expected.reason, fold, limit)?;
    by_fold_reader(rt, fold, limit, &UNIT, expected)?;
    print!(rt; ",")?;
    by_unroller(rt, fold, limit, &mut [0; 40], expected)
}

// The example of a refusal among folds.
fn refused_fold(rt: &impl Print, fold: &[u8], expected: Refusal) -> io::Result<()> {
    by_limited(rt, fold, 1024, expected)?;
    print!(rt; ",")?;
    by_builder_and_finder(rt, fold, expected)?;
    println!(rt)
}

// The example of refusal 7, which index builder and finder do not have: they take no limit.
fn wider(rt: &impl Print, fold: &[u8], limit: usize) -> io::Result<()> {
    by_limited(rt, fold, limit, Reason::TooWide.at(0))?;
    println!(rt)
}

// Refusals 1 to 10, and a few neighbours: an operand missing, a width over every limit, the 11th open repeat.
pub fn commands(rt: &impl Print) -> io::Result<()> {
    first_three(rt)?;
    closes(rt)?;
    repeats(rt)?;
    open(rt)?;
    nodes(rt)
}

// Refusals 1 to 3: a byte that is no command, one that is none of a run, and bytes that end too early.
fn first_three(rt: &impl Print) -> io::Result<()> {
    refused_run(rt, b"\x13", Reason::UnknownCommand.at(0))?;
    refused_fold(rt, b"\x13", Reason::UnknownCommand.at(0))?;
    refused_run(rt, b"\x10\x07\x21", Reason::RepeatInRun.at(2))?;
    refused_run(rt, b"\x10\x07\x20", Reason::RepeatInRun.at(2))?;
    refused_run(rt, b"\x11\x05", Reason::Unfinished.at(2))?;
    refused_fold(rt, b"\x11\x05", Reason::Unfinished.at(2))?;
    refused_run(rt, b"\x10\x07\x10", Reason::Unfinished.at(3))?;
    refused_fold(rt, b"\x20\x00\x01", Reason::Unfinished.at(3))
}

// Refusals 4 and 5: a close of nothing or of something else, and of an empty body.
fn closes(rt: &impl Print) -> io::Result<()> {
    refused_run(rt, b"\x12", Reason::WrongClose.at(0))?;
    refused_fold(rt, b"\x12", Reason::WrongClose.at(0))?;
    refused_fold(rt, b"\x11\x05\x21", Reason::WrongClose.at(2))?;
    refused_run(rt, b"\x11\x05\x12", Reason::Empty.at(2))?;
    refused_fold(rt, b"\x11\x05\x12", Reason::Empty.at(2))
}

// Refusals 6 and 7: a repeat's count and its width.
fn repeats(rt: &impl Print) -> io::Result<()> {
    let one_copy = b"\x20\x00\x01\x00\x01\x10\x07\x21";
    refused_fold(rt, one_copy, Reason::TooFewCopies.at(0))?;
    wider(rt, b"\x20\x00\x02\x00\x02\x10\x07\x10\x07\x21", 1)?;
    wider_than_all(rt, b"\x20\x00\x02\x04\x01\x10\x07\x21")
}

// A width over every limit: 7 by those that take a limit, 9 at the repeat's end by those that take none.
fn wider_than_all(rt: &impl Print, fold: &[u8]) -> io::Result<()> {
    wider(rt, fold, 1024)?;
    example(rt, Reason::UntrueWidth, fold)?;
    print!(rt; ":")?;
    by_builder_and_finder(rt, fold, Reason::UntrueWidth.at(7))?;
    println!(rt)
}

// Refusal 8: nine open groups, and eleven open repeats.
fn open(rt: &impl Print) -> io::Result<()> {
    let nine = b"\x11\x01\x11\x01\x11\x01\x11\x01\x11\x01\x11\x01\x11\x01\x11\x01\x11\x01";
    let eleven =
        b"\x20\x00\x02\x00\x01\x20\x00\x02\x00\x01\x20\x00\x02\x00\x01\x20\x00\x02\x00\x01\x20\x00\x02\x00\x01\x20\x00\x02\x00\x01\x20\x00\x02\x00\x01\x20\x00\x02\x00\x01\x20\x00\x02\x00\x01\x20\x00\x02\x00\x01\x20\x00\x02\x00\x01";
    refused_run(rt, nine, Reason::TooDeep.at(16))?;
    refused_fold(rt, nine, Reason::TooDeep.at(16))?;
    refused_fold(rt, eleven, Reason::TooDeep.at(50))
}

// Refusals 9 and 10: a body of another width, too many nodes, both at one close, and 1,025 steps whose label is the byte of a
// step.
fn nodes(rt: &impl Print) -> io::Result<()> {
    let other_width = b"\x20\x00\x02\x00\x02\x10\x07\x21";
    let too_many = b"\x20\x04\x01\x00\x01\x10\x07\x21";
    let both = b"\x20\x04\x01\x00\x02\x10\x07\x21";
    refused_fold(rt, other_width, Reason::UntrueWidth.at(7))?;
    refused_fold(rt, too_many, Reason::TooManyNodes.at(7))?;
    refused_fold(rt, both, Reason::TooManyNodes.at(7))?;
    refused_run(rt, &[Format::STEP; 2050], Reason::TooManyNodes.at(2048))
}
