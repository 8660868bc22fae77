// Refusals 18 and 19: marks that are not in order, and marked labels inside repeats, by those that take marks.
use format::{Costs, Reason, Refusal};
use print::UNIT;
use refusals::{by_fold_reader, by_reader_and_folder, row};
use std::io;

// An input with these tables, marks and limit, by fold reader and folder.
fn refused(
    rt: &impl Print,
    input: &[u8],
    limit: usize,
    costs: &Costs,
    reason: Reason,
) -> io::Result<()> {
    let (steps, groups) = (costs.steps.len(), costs.groups.len());
    row(rt, reason, input, limit)?;
    print!(rt;
        ", costs of {steps} steps and {groups} groups, marks {}",
        costs.marks.len()
    )?;
    by_reader_and_folder(rt, input, limit, costs, reason.at(0))
}

// Right tables and limit, and an input that is refused by itself.
fn with_marks(rt: &impl Print, input: &[u8], marks: &[u8]) -> io::Result<()> {
    let costs = Costs { marks, ..UNIT };
    refused(rt, input, 1024, &costs, Reason::Marks)
}

// Refusal 18: marks of another length or with another byte; 11, 15 and 12 come first, and the commands behind.
pub fn wrong_marks(rt: &impl Print) -> io::Result<()> {
    with_marks(rt, b"\x13", &[])?;
    with_marks(rt, b"\x13", &[0; 255])?;
    with_marks(rt, b"\x13", &[0; 257])?;
    for (label, byte) in [(0u8, 2u8), (255, 2), (7, 255)] {
        let mut marks = [0; 256];
        marks[usize::from(label)] = byte;
        with_marks(rt, b"\x13", &marks)?;
    }
    before_others(rt)?;
    before_commands(rt)
}

fn before_others(rt: &impl Print) -> io::Result<()> {
    let marks = Costs {
        marks: &[0; 255],
        ..UNIT
    };
    let groups = Costs {
        groups: &[1; 255],
        ..marks
    };
    let all = Costs {
        steps: &[1; 255],
        ..groups
    };
    refused(rt, b"\x13", 1025, &all, Reason::StepCosts)?;
    refused(rt, b"\x13", 1025, &groups, Reason::GroupCosts)?;
    refused(rt, b"\x13", 1025, &marks, Reason::LimitTooHigh)
}

// 18 before every command, each of which is refused by itself.
fn before_commands(rt: &impl Print) -> io::Result<()> {
    for command in [b"\x10", b"\x11", b"\x12", b"\x20", b"\x21"] {
        with_marks(rt, command, &[0; 255])?;
    }
    Ok(())
}

// A fold with one label marked, by the fold reader.
fn inside(rt: &impl Print, label: u8, fold: &[u8], expected: Refusal) -> io::Result<()> {
    let mut marks = [0; 256];
    marks[usize::from(label)] = 1;
    let costs = Costs {
        marks: &marks,
        ..UNIT
    };
    row(rt, expected.reason, fold, 1024)?;
    print!(rt; ", label marked {label}")?;
    by_fold_reader(rt, fold, 1024, &costs, expected)?;
    println!(rt)
}

// Refusal 19, at the command of a step and of a group, in the repeat itself and in a group in it; and what comes before it: 3 where
// the label is missing, 8 at a ninth group. It comes before 10.
pub fn repeated(rt: &impl Print) -> io::Result<()> {
    let step = b"\x20\x00\x02\x00\x01\x10\x07\x21";
    let group = b"\x20\x00\x02\x00\x01\x11\x05\x10\x07\x12\x21";
    let behind = b"\x11\x05\x20\x00\x02\x00\x03\x20\x00\x02\x00\x01\x10\x09\x21\x10\x07\x21\x12";
    let ninth =
        b"\x11\x01\x11\x01\x11\x01\x11\x01\x11\x01\x11\x01\x11\x01\x11\x01\x20\x00\x02\x00\x01\x11\x05";
    let step_over = b"\x20\x04\x00\x00\x01\x10\x09\x21\x20\x00\x02\x00\x01\x10\x07";
    let group_over = b"\x20\x04\x00\x00\x01\x10\x09\x21\x20\x00\x02\x00\x01\x11\x05";
    inside(rt, 7, step, Reason::MarkedInRepeat.at(5))?;
    inside(rt, 5, group, Reason::MarkedInRepeat.at(5))?;
    inside(rt, 7, group, Reason::MarkedInRepeat.at(7))?;
    inside(rt, 7, behind, Reason::MarkedInRepeat.at(15))?;
    inside(rt, 0, b"\x20\x00\x02\x00\x01\x10", Reason::Unfinished.at(6))?;
    inside(rt, 5, ninth, Reason::TooDeep.at(21))?;
    inside(rt, 7, step_over, Reason::MarkedInRepeat.at(13))?;
    inside(rt, 5, group_over, Reason::MarkedInRepeat.at(13))
}
