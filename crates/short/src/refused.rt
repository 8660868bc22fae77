// The refusals of the short family: outputs that are one byte short, what the short reader refuses and in which order, and `22`
// where it is no command.
use convert::{to_long, to_short};
use folder::fold_short;
use format::{Format, Reason, Refusal};
use harness::{fill_bytes, untouched};
use index::build_index;
use print::{Refused, UNIT, judge};
use reader::{read_fold, read_run, read_short};
use refusals::{row, told};
use std::io;
use unroller::unroll;

// An output of as many bytes as are needed is enough, one of a byte less is not and stays as it was.
fn too_little<F: Fn(&mut [u8]) -> Option<Refusal>>(
    rt: &impl Print,
    name: &str,
    enough: &mut [u8],
    less: &mut [u8],
    refused: F,
) -> io::Result<()>
    requires { F.IsAlwaysCallable refused }
{
    fill_bytes(less);
    let (by_enough, by_less) = (refused(enough), refused(less));
    print!(rt; "row 14: {name} in {} {}", enough.len(), Refused(by_enough))?;
    println!(rt; ", in {} {}", less.len(), Refused(by_less))?;
    let right = by_enough.is_none()
        && by_less == Some(Reason::ShortOutput.at(0))
        && untouched(less, 0);
    judge(rt, name, right)
}

// The short form of aaa has 6 bytes and its fold 8. What 14 measures of the short folder is the short form.
pub fn too_short(rt: &impl Print) -> io::Result<()> {
    let fold = b"\x20\x00\x03\x00\x01\x10\x01\x21";
    let short = b"\x22\x03\x01\x10\x01\x21";
    let run = b"\x10\x01\x10\x01\x10\x01";
    too_little(rt, "to short", &mut [0; 6], &mut [0; 5], |out| {
        to_short(fold, out).err()
    })?;
    too_little(rt, "to long", &mut [0; 8], &mut [0; 7], |out| {
        to_long(short, out).err()
    })?;
    too_little(rt, "short folder", &mut [0; 6], &mut [0; 5], |out| {
        fold_short(run, 1024, &UNIT, &mut [7; 6], &mut [7; 6], out).err()
    })
}

// A short fold at a limit, by the short reader.
fn read(rt: &impl Print, short: &[u8], limit: usize, expected: Refusal) -> io::Result<()> {
    let refused = read_short(short, limit, &UNIT).err();
    row(rt, expected.reason, short, limit)?;
    told(rt, ": short reader", refused, expected, true)?;
    println!(rt)
}

// 20 and what comes before and behind it.
pub fn short_reader(rt: &impl Print) -> io::Result<()> {
    let small = b"\x20\x00\x02\x00\x01\x10\x07\x21";
    let largest_small = b"\x20\x00\xff\x00\xff\x10\x07\x21";
    let wide = b"\x20\x00\xff\x01\x00\x10\x07\x21";
    let one_copy = b"\x20\x00\x01\x00\x02\x10\x07\x21";
    let two_wide = b"\x20\x00\x02\x00\x02\x10\x07\x21";
    read(rt, small, 1024, Reason::NotShortest.at(0))?;
    read(rt, largest_small, 1024, Reason::NotShortest.at(0))?;
    read(rt, wide, 1024, Reason::UntrueWidth.at(7))?;
    read(rt, one_copy, 1, Reason::TooFewCopies.at(0))?;
    read(rt, two_wide, 1, Reason::TooWide.at(0))?;
    read(rt, &ELEVENTH_LONG, 1024, Reason::NotShortest.at(30))?;
    read(rt, &ELEVENTH_SHORT, 1024, Reason::TooDeep.at(30))?;
    short_repeats(rt)
}

// At a `22` what a `20` is refused with.
fn short_repeats(rt: &impl Print) -> io::Result<()> {
    let one_copy = b"\x22\x01\x02\x10\x07\x21";
    let two_wide = b"\x22\x02\x02\x10\x07\x21";
    let wrong_close = b"\x22\x02\x01\x10\x07\x12";
    read(rt, b"\x22", 1024, Reason::Unfinished.at(1))?;
    read(rt, b"\x22\x03", 1024, Reason::Unfinished.at(2))?;
    read(rt, one_copy, 1, Reason::TooFewCopies.at(0))?;
    read(rt, two_wide, 1, Reason::TooWide.at(0))?;
    read(rt, b"\x22\x02\x01\x21", 1024, Reason::Empty.at(3))?;
    read(rt, two_wide, 1024, Reason::UntrueWidth.at(5))?;
    read(rt, wrong_close, 1024, Reason::WrongClose.at(5))?;
    read(rt, b"\x13", 1024, Reason::UnknownCommand.at(0))
}

// Ten open repeats, and an eleventh: by a `20` whose count and width are below 256, and by a `22`.
const ELEVENTH_LONG: [u8; 35] = [
    0x22, 2, 1, 0x22, 2, 1, 0x22, 2, 1, 0x22, 2, 1, 0x22, 2, 1, 0x22, 2, 1, 0x22, 2, 1, 0x22, 2, 1,
    0x22, 2, 1, 0x22, 2, 1, 0x20, 0, 2, 0, 1,
];

const ELEVENTH_SHORT: [u8; 33] = [
    0x22, 2, 1, 0x22, 2, 1, 0x22, 2, 1, 0x22, 2, 1, 0x22, 2, 1, 0x22, 2, 1, 0x22, 2, 1, 0x22, 2, 1,
    0x22, 2, 1, 0x22, 2, 1, 0x22, 2, 1,
];

// A `22` in a fold and in a run, by all that read one; and a small `20` where a short fold is taken.
pub fn elsewhere(rt: &impl Print) -> io::Result<()> {
    let input = b"\x10\x07\x22\x02\x01\x10\x07\x21";
    let by_run_reader = read_run::<Format>(input).err();
    let by_fold_reader = read_fold::<Format>(input, 1024, &UNIT).err();
    let by_unroller = unroll::<Format>(input, 1024, &mut [0; 20]).err();
    let by_builder = build_index(input, &mut [0; 4], &mut [0; 4]).err();
    let by_converter = to_short(input, &mut [0; 20]).err();
    let unknown = Reason::UnknownCommand.at(2);
    row(rt, unknown.reason, input, 1024)?;
    told(rt, ": run reader", by_run_reader, unknown, true)?;
    told(rt, ", fold reader", by_fold_reader, unknown, true)?;
    told(rt, ", unroller", by_unroller, unknown, true)?;
    told(rt, ", index builder", by_builder, unknown, true)?;
    told(rt, ", to short", by_converter, unknown, true)?;
    println!(rt)?;
    let fold = b"\x10\x07\x20\x00\x02\x00\x01\x10\x07\x21";
    let small = Reason::NotShortest.at(2);
    row(rt, small.reason, fold, 1024)?;
    told(
        rt,
        ": to long",
        to_long(fold, &mut [0; 20]).err(),
        small,
        true,
    )?;
    println!(rt)
}
