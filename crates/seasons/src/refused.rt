// What the season folder refuses, with every entry of the lent slices looked at.
use crate::folded::Call;
use format::{Costs, Reason, Refusal};
use print::UNIT;
use refusals::{row, told};
use std::io;

// The season folder at unit prices of repeats.
fn refuses(
    rt: &impl Print,
    call: Call,
    work: &mut [u32],
    out: &mut [u8],
    expected: Refusal,
) -> io::Result<()> {
    let checked = call.fold_checked(work, out);
    row(rt, expected.reason, call.run, call.limit)?;
    print!(rt; ", work {}, output {}", work.len(), out.len())?;
    let refused = checked.answer.err();
    told(rt, ": season folder", refused, expected, checked.right)?;
    println!(rt)
}

// Tables, limit and marks, in the order of their checks; the run would be refused by its group.
pub fn settings(rt: &impl Print) -> io::Result<()> {
    let marks = Costs {
        marks: &[0; 255],
        ..UNIT
    };
    let groups = Costs {
        groups: &[1; 255],
        ..marks
    };
    let all = Costs {
        steps: &[1; 255],
        ..groups
    };
    refuse_group(rt, 33, all, Reason::StepCosts)?;
    refuse_group(rt, 33, groups, Reason::GroupCosts)?;
    refuse_group(rt, 33, marks, Reason::LimitTooHigh)?;
    refuse_group(rt, 32, marks, Reason::Marks)?;
    refuse_group(rt, 32, UNIT, Reason::GroupInSeason)
}

fn refuse_group(rt: &impl Print, limit: usize, costs: Costs, reason: Reason) -> io::Result<()> {
    let call = Call {
        run: b"\x11",
        limit,
        costs,
        used: 0,
    };
    refuses(rt, call, &mut [0; 8], &mut [0; 8], reason.at(0))
}

// A run's own refusals, which come before that of its work.
pub fn refuse_run(rt: &impl Print, run: &[u8], expected: Refusal) -> io::Result<()> {
    refuses(rt, Call::unit(run, 0), &mut [0; 8], &mut [0; 8], expected)
}

pub fn commands(rt: &impl Print) -> io::Result<()> {
    let group = b"\x10\x07\x11\x05\x10\x07\x12";
    refuse_run(rt, b"\x22", Reason::UnknownCommand.at(0))?;
    refuse_run(rt, b"\x10\x07\x21", Reason::RepeatInRun.at(2))?;
    refuse_run(rt, group, Reason::GroupInSeason.at(2))?;
    refuse_run(rt, b"\x10\x07\x10", Reason::Unfinished.at(3))?;
    refuse_run(rt, b"\x12", Reason::WrongClose.at(0))?;
    refuse_run(rt, b"\x10\x07", Reason::ShortWork.at(0))
}

// Work that is an entry short, of the empty run and of aaa; then an output that is a byte short, and the work is cleared.
pub fn room(rt: &impl Print) -> io::Result<()> {
    let aaa = b"\x10\x01\x10\x01\x10\x01";
    let (no_work, no_output) = (Reason::ShortWork.at(0), Reason::ShortOutput.at(0));
    refuses(rt, Call::unit(b"", 0), &mut [0; 255], &mut [0; 7], no_work)?;
    refuses(rt, Call::unit(aaa, 0), &mut [0; 1023], &mut [0; 7], no_work)?;
    refuses(
        rt,
        Call::unit(aaa, 1024),
        &mut [0; 1030],
        &mut [0; 7],
        no_output,
    )
}
