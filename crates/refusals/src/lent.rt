// Refusals 11, 15 and 12, of what an input is read at, and 13 and 14, of what is lent.
use crate::lines::{by_fold_reader, by_reader_and_folder, by_roomy_folder, by_unroller, row, told};
use format::{Costs, Format, Reason, Refusal};
use harness::fold_checked;
use print::UNIT;
use std::io;

// A cost table with an entry more than there are labels.
const LONG: [u16; Format::LABELS + 1] = [1; Format::LABELS + 1];

// Unit prices in tables of these sizes.
fn tables(steps: usize, groups: usize) -> Costs<'static> {
    Costs {
        steps: LONG.get(..steps).unwrap_or(&[]),
        groups: LONG.get(..groups).unwrap_or(&[]),
        ..UNIT
    }
}

// Refusals 11, 15 and 12. Each example would be refused by a later check too.
pub fn settings(rt: &impl Print) -> io::Result<()> {
    wrong_tables(rt)?;
    before_commands(rt)?;
    high_limit(rt)
}

// The example of a refusal with these tables, by fold reader and folder.
fn refused_tables(
    rt: &impl Print,
    input: &[u8],
    limit: usize,
    costs: &Costs,
    reason: Reason,
) -> io::Result<()> {
    let (steps, groups) = (costs.steps.len(), costs.groups.len());
    row(rt, reason, input, limit)?;
    print!(rt; ", costs of {steps} steps and {groups} groups")?;
    by_reader_and_folder(rt, input, limit, costs, reason.at(0))
}

// The table of steps wrong, that of groups wrong, and both at once: then 11 comes first. The limit is one that 12 refuses.
fn wrong_tables(rt: &impl Print) -> io::Result<()> {
    for (steps, groups, reason) in [
        (0, 256, Reason::StepCosts),
        (255, 256, Reason::StepCosts),
        (257, 256, Reason::StepCosts),
        (256, 0, Reason::GroupCosts),
        (256, 255, Reason::GroupCosts),
        (256, 257, Reason::GroupCosts),
        (0, 257, Reason::StepCosts),
        (255, 255, Reason::StepCosts),
        (257, 0, Reason::StepCosts),
    ] {
        refused_tables(rt, b"\x13", 1025, &tables(steps, groups), reason)?;
    }
    Ok(())
}

// 15 before every command, each of which is refused by itself.
fn before_commands(rt: &impl Print) -> io::Result<()> {
    for command in [b"\x13", b"\x10", b"\x11", b"\x12", b"\x20", b"\x21"] {
        refused_tables(rt, command, 1024, &tables(256, 255), Reason::GroupCosts)?;
    }
    Ok(())
}

fn high_limit(rt: &impl Print) -> io::Result<()> {
    let expected = Reason::LimitTooHigh.at(0);
    row(rt, expected.reason, b"\x13", 1025)?;
    by_fold_reader(rt, b"\x13", 1025, &UNIT, expected)?;
    print!(rt; ",")?;
    by_unroller(rt, b"\x13", 1025, &mut [0; 8], expected)?;
    print!(rt; ",")?;
    by_roomy_folder(rt, b"\x13", 1025, &UNIT, expected)?;
    println!(rt)
}

// The folder with an output of 1 byte, and as much work as is lent: a line of its own.
fn by_cramped_folder(
    rt: &impl Print,
    run: &[u8],
    costs: &mut [u32],
    choices: &mut [u32],
    expected: Refusal,
) -> io::Result<()> {
    row(rt, expected.reason, run, 1024)?;
    print!(rt; ", work {} and {}, output 1:", costs.len(), choices.len())?;
    let checked = fold_checked(run, 1024, &UNIT, costs, choices, &mut [0; 1]);
    let refused = checked.answer.err();
    told(rt, " folder", refused, expected, checked.right)?;
    println!(rt)
}

// Refusals 13 and 14: work of 2 entries and of 3, output of 1 byte. A refused run comes before 13, and 13 before 14.
pub fn room(rt: &impl Print) -> io::Result<()> {
    let aa = b"\x10\x01\x10\x01";
    let unknown = Reason::UnknownCommand.at(0);
    let (no_work, no_output) = (Reason::ShortWork.at(0), Reason::ShortOutput.at(0));
    by_cramped_folder(rt, b"\x13", &mut [0; 2], &mut [0; 3], unknown)?;
    by_cramped_folder(rt, aa, &mut [0; 2], &mut [0; 3], no_work)?;
    by_cramped_folder(rt, aa, &mut [0; 3], &mut [0; 2], no_work)?;
    by_cramped_folder(rt, aa, &mut [0; 3], &mut [0; 3], no_output)?;
    by_cramped_folder(rt, b"\x10\x01", &mut [0; 3], &mut [0; 2], no_output)?;
    little_output(rt)
}

fn little_output(rt: &impl Print) -> io::Result<()> {
    let expected = Reason::ShortOutput.at(0);
    row(rt, expected.reason, b"\x10\x01", 1024)?;
    print!(rt; ", output 1:")?;
    by_unroller(rt, b"\x10\x01", 1024, &mut [0; 1], expected)?;
    println!(rt)
}
