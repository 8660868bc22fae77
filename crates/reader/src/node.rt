// The part of a node: where a node starts, and where it ends.
ghost use Rattle.std.specs.Prelude.{◌≡◌, ◌+◌, ◌≤◌, ◌<◌, length, drop};
ghost use Rattle.format.specs.Parts.{starts, still_open, node_size};

use format::{Format, opens_node, operand_bytes};

// The groups that are open after a command.
fn open_after(d: usize, c: u8) -> usize
    requires { d < 18446744073709551615 }
    ensures { (result ≡ still_open d c) × (result ≤ d + 1) }
{
    match c {
        Format::GROUP => d + 1,
        Format::GROUP_END => d.saturating_sub(1),
        _ => d,
    }
}

// Whether a node starts at an offset, counting commands from the first one on.
#[tactic(auto, using(crate::proofs::Nodes::starts_past, crate::proofs::Nodes::counted_here, crate::proofs::Nodes::counted_inside))]
pub fn starts_at(run: &[u8], at: usize) -> bool
    ensures { result ≡ starts at 0 run.now }
{
    if run.len() <= at {
        return false;
    }
    let mut skip: usize = 0;
    for c in &run[..at] {
        if skip == 0 {
            skip = operand_bytes(*c);
        } else {
            skip -= 1;
        }
    }
    skip == 0 && opens_node(run[at])
}

// Where the node at an offset ends.
#[tactic(auto, using(crate::proofs::Nodes::ending_first, crate::proofs::Nodes::ending_command, crate::proofs::Nodes::ending_operand, crate::proofs::Nodes::ending_closed, crate::proofs::Nodes::ending_last, crate::proofs::Nodes::ending_all))]
pub fn node_end(run: &[u8], at: usize) -> usize
    requires { at < length run.now }
    ensures { result ≡ at + node_size (drop at run.now) }
{
    let c = run[at];
    let mut d = open_after(0, c);
    let mut skip = operand_bytes(c);
    for q in at + 1..run.len() {
        if d == 0 {
            return q + skip;
        }
        if skip == 0 {
            d = open_after(d, run[q]);
            skip = operand_bytes(run[q]);
        } else {
            skip -= 1;
        }
    }
    if d == 0 {
        return run.len() + skip;
    }
    run.len()
}
