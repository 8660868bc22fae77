// The parts of a line: the example of a refusal, and what the entry points answer to it.
use format::{Costs, Format, Reason, Refusal};
use harness::{fill_bytes, fold_checked, untouched};
use print::{Bytes, Refused, Setting, UNIT, difference};
use reader::{read_fold, read_run};
use std::io;
use unroller::unroll;

// The line of a refusal begins with its number and the input.
pub fn example(rt: &impl Print, reason: Reason, input: &[u8]) -> io::Result<()> {
    print!(rt; "row {}, {}", reason.number(), Bytes(input))
}

// The same with what the input is read at; repeats have unit prices everywhere.
pub fn row(rt: &impl Print, reason: Reason, input: &[u8], limit: usize) -> io::Result<()> {
    example(rt, reason, input)?;
    print!(rt; "{}", Setting(limit, &UNIT))
}

// Prints by what an entry point refuses, and says where that is not as expected, or what else was looked at is not right.
pub fn told(
    rt: &impl Print,
    who: &str,
    refused: Option<Refusal>,
    expected: Refusal,
    right: bool,
) -> io::Result<()> {
    print!(rt; "{who} {}", Refused(refused))?;
    if refused == Some(expected) && right {
        return Ok(());
    }
    println!(rt)?;
    difference(rt, who)
}

pub fn by_run_reader(rt: &impl Print, run: &[u8], expected: Refusal) -> io::Result<()> {
    let refused = read_run::<Format>(run).err();
    told(rt, ": run reader", refused, expected, true)
}

pub fn by_fold_reader(
    rt: &impl Print,
    fold: &[u8],
    limit: usize,
    costs: &Costs,
    expected: Refusal,
) -> io::Result<()> {
    let refused = read_fold::<Format>(fold, limit, costs).err();
    told(rt, ": fold reader", refused, expected, true)
}

// The unroller, which leaves the output as it was.
pub fn by_unroller(
    rt: &impl Print,
    fold: &[u8],
    limit: usize,
    out: &mut [u8],
    expected: Refusal,
) -> io::Result<()> {
    fill_bytes(out);
    let refused = unroll::<Format>(fold, limit, out).err();
    told(rt, " unroller", refused, expected, untouched(out, 0))
}

// The folder with room enough.
pub fn by_roomy_folder(
    rt: &impl Print,
    run: &[u8],
    limit: usize,
    costs: &Costs,
    expected: Refusal,
) -> io::Result<()> {
    let checked = fold_checked(run, limit, costs, &mut [0; 60], &mut [0; 60], &mut [0; 40]);
    let refused = checked.answer.err();
    told(rt, " folder", refused, expected, checked.right)
}

// An input that fold reader and folder refuse for what comes before its bytes, to the end of the line.
pub fn by_reader_and_folder(
    rt: &impl Print,
    input: &[u8],
    limit: usize,
    costs: &Costs,
    expected: Refusal,
) -> io::Result<()> {
    by_fold_reader(rt, input, limit, costs, expected)?;
    print!(rt; ",")?;
    by_roomy_folder(rt, input, limit, costs, expected)?;
    println!(rt)
}
