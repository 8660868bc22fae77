// The way down: from an item to the command that writes a node of its run.
ghost use Rattle.std.specs.Prelude.{◌≡◌, map};
ghost use Rattle.std.proofs.Math.Option.{some};
ghost use Rattle.std.proofs.Math.ListN.{get_elem?};
ghost use Rattle.format.specs.Forest.{Forest};
ghost use Rattle.index.specs.Nodes.{Written, writes};
ghost use Rattle.index.specs.inner.Passing.{NodeIn};

use crate::pass::{Spot, pass_sequence};
use format::Format;
use walk::operand;

// The offset of the command that writes node `position` of the item at `from`. A node takes one off the position. A repeat is
// passed as a whole, or entered with the position in one pass of its body; groups are walked through, and need no counting.
pub fn descend(s: &[u8], from: usize, position: usize) -> usize
    requires { (f : Forest) × NodeIn s.now from position f }
    ensures { (f : Forest) → NodeIn s.now from position f → get_elem? (map (λ (w : Written). w.offset) (writes from f)) position ≡ some result }
{
    let mut at = from;
    let mut n = position;
    // Stays: the way goes from command to command, into a body or past it, which no range or iterator steps over.
    while at < s.len() {
        match s[at] {
            Format::GROUP_END => at += 1,
            Format::REPEAT => {
                let body = pass_sequence(
                    s,
                    Spot {
                        at: at + 5,
                        nodes: 0,
                    },
                );
                let one = body.nodes;
                let all = operand(s, at + 1) * one;
                if n < all {
                    n %= one;
                    at += 5;
                } else {
                    n -= all;
                    at = body.at + 1;
                }
            }
            _ => {
                if n == 0 {
                    return at;
                }
                n -= 1;
                at += 2;
            }
        }
    }
    // Not reached: the node looked for comes before the end.
    at
}
