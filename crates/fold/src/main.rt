// The fold program: reads a run from standard input, folds it at unit costs and limit 1,024, and prints its nodes, the cost
// and the bytes of its cheapest fold, or the refusal. Where it cannot read or print, it says so on standard error.
#![tactic(auto)]

mod input;
mod text;

ghost use Rattle.std.specs.Prelude.{◌≡◌, ◌≤◌, length};
ghost use Rattle.format.specs.Readings.{run_reading};
ghost use Rattle.fold.specs.PutText.{PutText};
ghost use Rattle.fold.specs.Printed.{printed};

use folder::fold;
use format::{Costs, Format};
use input::read_input;
use reader::read_run;
use std::io;
use text::{put_refusal, put_report};

// The text that is printed for a run. Unit costs: every label 1 for steps and groups and none marked, first 1, each 0. The work
// serves 100 nodes.
fn answer(run: &[u8], text: &mut [u8]) -> usize
    requires { 8252 ≤ length text.old }
    ensures { PutText text.old text.new 0 (printed run.now) result }
{
    let labels = [1u16; 256];
    let marks = [0u8; 256];
    let unit = Costs {
        steps: &labels,
        groups: &labels,
        marks: &marks,
        first: 1,
        each: 0,
    };
    let mut costs = [0u32; 5050];
    let mut choices = [0u32; 5050];
    let mut out = [0u8; 4096];
    match fold(
        run,
        Format::WIDTH,
        &unit,
        &mut costs,
        &mut choices,
        &mut out,
    ) {
        Ok(fold) => put_report(nodes_of(run), fold.cost, &out[..fold.length], text),
        Err(refusal) => put_refusal(refusal, text),
    }
}

// The nodes of a run; 0 of one that is refused.
// Stays: as in harness, on which this program does not stand, since that is for programs that try the library.
fn nodes_of(run: &[u8]) -> u64
    ensures { result ≡ (run_reading run.now).nodes }
{
    match read_run::<Format>(run) {
        Ok(counts) => counts.nodes as u64,
        Err(_) => 0,
    }
}

// Says on standard error what failed, a colon and what the system says of it. Where that can't be written either, nothing is said.
fn fail(rt: &(impl Eprint + Alloc), what: &str, error: &io::Error) {
    let _ = say(rt, what, error);
}

// An error of the system is written with its number behind, which is left out.
fn without_number(text: &str) -> &str {
    match text.split_once(" (os error ") {
        Some((said, _)) => said,
        None => text,
    }
}

fn say(rt: &(impl Eprint + Alloc), what: &str, error: &io::Error) -> io::Result<()> {
    let text = error.to_string(rt.alloc())?;
    let said = without_number(text.as_str());
    eprintln!(rt; "{what}: {said}")
}

// At most 4,096 bytes are read: more cannot alter the answer (`more_input` in proofs/More.antt). An input that could not be read
// has no answer, and nothing is printed of what came before.
fn main(rt: HostRuntime) {
    let mut bytes = [0u8; 4096];
    let n = match read_input(&mut rt.stdin(), &mut bytes) {
        Ok(n) => n,
        Err(error) => {
            fail(&rt, "fold: standard input", &error);
            return;
        }
    };
    let mut text = [0u8; 8252];
    let k = answer(&bytes[..n], &mut text);
    if let Err(error) = rt.write_all(&text[..k]) {
        fail(&rt, "fold: standard output", &error);
    }
}
