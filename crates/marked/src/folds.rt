// Runs with marked labels and the folds that are known of them: every step and group costs 1, first 1, each 0.
use case::Case;
use format::Costs;
use print::UNIT;
use std::io;

// A case with one label marked.
fn marked(rt: &impl Print, label: u8, case: Case) -> io::Result<()> {
    let mut marks = [0; 256];
    marks[usize::from(label)] = 1;
    let costs = Costs {
        marks: &marks,
        ..UNIT
    };
    print!(rt; "label {label} marked, ")?;
    Case { costs, ..case }.known(rt)
}

// The steps a, b and c have the labels 01, 02 and 03.
pub fn folds(rt: &impl Print) -> io::Result<()> {
    steps(rt)?;
    groups(rt)?;
    deeper(rt)?;
    all_marked(rt)
}

fn steps(rt: &impl Print) -> io::Result<()> {
    let aaa = b"\x10\x01\x10\x01\x10\x01";
    let folded = b"\x20\x00\x03\x00\x01\x10\x01\x21";
    marked(rt, 1, Case::unit("aaa", aaa, aaa, 3))?;
    marked(rt, 2, Case::unit("aaa", aaa, folded, 2))?;
    let run = b"\x10\x01\x10\x01\x10\x01\x10\x02\x10\x01\x10\x01\x10\x01\x10\x02";
    let around =
        b"\x20\x00\x03\x00\x01\x10\x01\x21\x10\x02\x20\x00\x03\x00\x01\x10\x01\x21\x10\x02";
    let twice = b"\x20\x00\x02\x00\x04\x20\x00\x03\x00\x01\x10\x01\x21\x10\x02\x21";
    let itself = Case::unit("aaabaaab", run, run, 8);
    marked(rt, 2, Case::unit("aaabaaab", run, around, 6))?;
    marked(rt, 2, Case { limit: 0, ..itself })?;
    marked(rt, 3, Case::unit("aaabaaab", run, twice, 4))?;
    marked(rt, 1, itself)
}

// A group is held together by what it holds: marked inside, it is not repeated; marked itself, its inside is.
fn groups(rt: &impl Print) -> io::Result<()> {
    let twice = b"\x11\x05\x10\x01\x12\x11\x05\x10\x01\x12";
    let folded = b"\x20\x00\x02\x00\x01\x11\x05\x10\x01\x12\x21";
    let unfolded = Case::unit("group 05 holding a, twice", twice, twice, 4);
    marked(rt, 1, unfolded)?;
    marked(rt, 5, unfolded)?;
    marked(rt, 2, Case::unit(unfolded.name, twice, folded, 3))?;
    let aaa = b"\x11\x05\x10\x01\x10\x01\x10\x01\x12";
    let inside = b"\x11\x05\x20\x00\x03\x00\x01\x10\x01\x21\x12";
    let name = "group 05 holding aaa";
    marked(rt, 5, Case::unit(name, aaa, inside, 3))?;
    marked(rt, 1, Case::unit(name, aaa, aaa, 4))
}

// A marked step two groups deep, beside a free group; and a marked group that holds free groups.
fn deeper(rt: &impl Print) -> io::Result<()> {
    let deep = b"\x11\x05\x11\x06\x10\x01\x12\x12\x11\x05\x11\x06\x10\x01\x12\x12";
    let name = "group 05 holding 06 holding a, twice";
    marked(rt, 1, Case::unit(name, deep, deep, 6))?;
    let mixed = b"\x11\x05\x10\x01\x12\x11\x05\x10\x02\x12\x11\x05\x10\x02\x12\x11\x05\x10\x01\x12";
    let middle =
        b"\x11\x05\x10\x01\x12\x20\x00\x02\x00\x01\x11\x05\x10\x02\x12\x21\x11\x05\x10\x01\x12";
    let name = "group 05 holding a, b, b and a";
    marked(rt, 1, Case::unit(name, mixed, middle, 7))?;
    let outer = b"\x11\x05\x11\x06\x10\x01\x12\x11\x06\x10\x01\x12\x12";
    let inner = b"\x11\x05\x20\x00\x02\x00\x01\x11\x06\x10\x01\x12\x21\x12";
    let name = "group 05 holding 06 holding a, twice, inside";
    marked(rt, 5, Case::unit(name, outer, inner, 4))
}

// Where every label is marked, the cheapest fold is the run.
fn all_marked(rt: &impl Print) -> io::Result<()> {
    let run = b"\x10\x01\x10\x01\x10\x01\x11\x05\x10\x02\x10\x02\x10\x02\x12";
    let costs = Costs {
        marks: &[1; 256],
        ..UNIT
    };
    print!(rt; "every label marked, ")?;
    Case {
        costs,
        ..Case::unit("aaa and group 05 holding bbb", run, run, 7)
    }
    .known(rt)
}
