// Writing the cheapest fold of a season run by the pairs in its blocks. What has no room is left out and the place behind the
// fold is answered all the same, so over an empty output the writer only measures. The functions call each other, the steps
// falling; widths halve, so a body holds no more than five repeats inside each other.
ghost use Rattle.std.specs.Prelude.{◌≡◌, ◌+◌, ◌*◌, ◌-◌, ◌/◌, ◌%◌, ◌<◌};
ghost use Rattle.season.specs.Writing.{left_slot, covers, StepsFit, ItemFits, StepsWritten, ItemWritten};

use blocks::{Block, key_at, slot};
use format::Format;
use put::{put_byte, put_open};

// The slot of what is left of a tail, or of a stretch.
fn left_slot(tail: bool, left: usize) -> usize
    ensures { result ≡ left_slot tail left }
{
    if tail {
        return Block::TAIL;
    }
    left
}

// The steps that an item covers: the plain step, or all copies of a repeat.
fn covers(pair: u64) -> usize
    requires { pair < 4194304 }
    ensures { result ≡ covers pair }
{
    if pair == 0 {
        return 1;
    }
    ((pair / Block::WIDTHS) * (pair % Block::WIDTHS)) as usize
}

// Writes the cheapest fold of the steps from `from` up to `end` from the place `to` on, and answers the place behind it: of a
// tail, that goes up to the run's end, or of a stretch.
#[cycle(put)]
pub fn put_steps(
    run: &[u8],
    work: &[u32],
    tail: bool,
    from: usize,
    end: usize,
    out: &mut [u8],
    to: usize,
) -> usize
    requires { StepsFit run.now work.now tail from end to }
    ensures { StepsWritten run.now work.now tail from end to out.old out.new result }
{
    let mut i = from;
    let mut p = to;
    // Stays: each turn goes on by what its item covers, as the pair says, so no range and no fixed step gives the turns.
    while i < end {
        let pair = key_at(work, slot(i, left_slot(tail, end - i))).pair;
        p = put_item(run, work, i, pair, out, p);
        i += covers(pair);
    }
    p
}

// Writes the item of step i by its pair.
#[cycle(put)]
fn put_item(run: &[u8], work: &[u32], i: usize, pair: u64, out: &mut [u8], to: usize) -> usize
    requires { ItemFits run.now work.now i pair to }
    ensures { ItemWritten run.now work.now i pair to out.old out.new result }
{
    if pair == 0 {
        put_byte(out, to, Format::STEP);
        put_byte(out, to + 1, run[2 * i + 1]);
        return to + 2;
    }
    let count = (pair / Block::WIDTHS) as usize;
    let width = (pair % Block::WIDTHS) as usize;
    let inside = put_open(out, to, false, count, width);
    let p = put_steps(run, work, false, i, i + width, out, inside);
    put_byte(out, p, Format::REPEAT_END);
    p + 1
}
