// Folds and their short forms: each is converted to the other, both are read alike, and what is lent beyond is untouched.
use convert::{to_long, to_short};
use format::Format;
use harness::{fill_bytes, unrolled as wrote};
use print::{UNIT, difference, judge};
use reader::{read_fold, read_short};
use std::io;

// A fold and its short form.
fn there_and_back(rt: &impl Print, name: &str, fold: &[u8], short: &[u8]) -> io::Result<()> {
    let mut forth = [0; 80];
    let mut back = [0; 80];
    fill_bytes(&mut forth);
    fill_bytes(&mut back);
    let shorter = to_short(fold, &mut forth);
    let longer = to_long(short, &mut back);
    let read = read_short(short, 1024, &UNIT);
    let (Ok(bytes), Ok(short_bytes), Ok(counts)) = (longer, shorter, read) else {
        println!(rt; "{name}: refused")?;
        return difference(rt, name);
    };
    println!(rt;
        "{name}: length {bytes}, short {short_bytes}, nodes {}, cost {}",
        counts.nodes, counts.cost
    )?;
    let right = wrote(shorter, short, &forth)
        && wrote(longer, fold, &back)
        && read == read_fold::<Format>(fold, 1024, &UNIT);
    judge(rt, name, right)
}

// The step a has the label 01.
pub fn forms(rt: &impl Print) -> io::Result<()> {
    there_and_back(rt, "nothing", b"", b"")?;
    there_and_back(rt, "a", b"\x10\x01", b"\x10\x01")?;
    let three = b"\x20\x00\x03\x00\x01\x10\x01\x21";
    there_and_back(rt, "3 a", three, b"\x22\x03\x01\x10\x01\x21")?;
    let most = b"\x20\x00\xff\x00\x01\x10\x01\x21";
    there_and_back(rt, "255 a", most, b"\x22\xff\x01\x10\x01\x21")?;
    let same = b"\x20\x01\x00\x00\x01\x10\x01\x21";
    there_and_back(rt, "256 a", same, same)?;
    wide(rt)?;
    mixed(rt)
}

// Widths of 255 and of 256.
fn wide(rt: &impl Print) -> io::Result<()> {
    there_and_back(
        rt,
        "255 a, twice",
        b"\x20\x00\x02\x00\xff\x20\x00\xff\x00\x01\x10\x01\x21\x21",
        b"\x22\x02\xff\x22\xff\x01\x10\x01\x21\x21",
    )?;
    there_and_back(
        rt,
        "aa 128 times, twice",
        b"\x20\x00\x02\x01\x00\x20\x00\x80\x00\x02\x10\x01\x10\x01\x21\x21",
        b"\x20\x00\x02\x01\x00\x22\x80\x02\x10\x01\x10\x01\x21\x21",
    )
}

// A `20` around a `22`, a `22` around a `20`, and labels that look like commands.
fn mixed(rt: &impl Print) -> io::Result<()> {
    there_and_back(
        rt,
        "aa 256 times",
        b"\x20\x01\x00\x00\x02\x20\x00\x02\x00\x01\x10\x01\x21\x21",
        b"\x20\x01\x00\x00\x02\x22\x02\x01\x10\x01\x21\x21",
    )?;
    there_and_back(
        rt,
        "group 05 holding 256 a, twice",
        b"\x20\x00\x02\x00\x01\x11\x05\x20\x01\x00\x00\x01\x10\x01\x21\x12\x21",
        b"\x22\x02\x01\x11\x05\x20\x01\x00\x00\x01\x10\x01\x21\x12\x21",
    )?;
    there_and_back(
        rt,
        "group 22 holding step 20, twice",
        b"\x20\x00\x02\x00\x01\x11\x22\x10\x20\x12\x21",
        b"\x22\x02\x01\x11\x22\x10\x20\x12\x21",
    )
}
