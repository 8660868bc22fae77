// The parts of nodes, and siblings compared by them.
use print::judge;
use reader::{part, same_node};
use std::io;

// Whether the part at an offset is that many bytes of the run.
fn part_is(run: &[u8], at: usize, length: usize) -> bool {
    let found = part(run, at);
    found.len() == length && run.get(at..).unwrap_or(&[]).starts_with(found)
}

// Prints at how many offsets, from 0 on, the part has the length expected there, and says where those are not all.
fn show(rt: &impl Print, name: &str, run: &[u8], lengths: &[usize]) -> io::Result<()> {
    let right = lengths
        .iter()
        .enumerate()
        .filter(|(at, length)| part_is(run, *at, **length))
        .count();
    println!(rt; "{name}: right at {right} offsets of {}", lengths.len())?;
    judge(rt, name, right == lengths.len())
}

// Two siblings that must be equal, or must not.
fn siblings(
    rt: &impl Print,
    name: &str,
    run: &[u8],
    a: usize,
    b: usize,
    equal: bool,
) -> io::Result<()> {
    let same = same_node(run, a, b);
    let said = if same { "equal" } else { "not equal" };
    println!(rt; "{name}: {said}")?;
    judge(rt, name, same == equal)
}

// A step, group 05 holding a, group 05 holding b, and group 05 holding a: a part starts at each node, and none at a label, at
// a close, past the end or in a refused run.
pub fn parts(rt: &impl Print) -> io::Result<()> {
    let run = b"\x10\x01\x11\x05\x10\x01\x12\x11\x05\x10\x02\x12\x11\x05\x10\x01\x12";
    let refused = b"\x10\x01\x11\x05\x10\x01\x12\x11";
    let lengths = [2, 0, 5, 0, 2, 0, 0, 5, 0, 2, 0, 0, 5, 0, 2, 0, 0, 0, 0];
    show(rt, "parts", run, &lengths)?;
    show(rt, "parts of a refused run", refused, &[0; 10])?;
    siblings(rt, "group 05 holding a, and again", run, 2, 12, true)?;
    siblings(rt, "group 05 holding a, and holding b", run, 2, 7, false)?;
    siblings(rt, "step 01, and group 05", run, 0, 2, false)
}
