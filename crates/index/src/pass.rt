// The walk that counts. The fold was read before, so the walk refuses nothing: it passes over items and counts the nodes of
// their runs, a repeat's body once whatever its count. A sequence is a loop over its items, and a group or a repeat holds a
// sequence; `pass_sequence` and `pass_holder` call each other, remaining bytes falling.
ghost use Rattle.std.specs.Prelude.{◌≡◌, ◌+◌, ◌≤◌, ◌<◌};
ghost use Rattle.format.specs.Limits.{limits};
ghost use Rattle.format.specs.Forest.{Forest};
ghost use Rattle.index.specs.inner.Passing.{SequenceFrom, ItemFrom, HolderFrom, PassedOver};

use format::{Format, closes};
use walk::operand;

// How far the fold is passed over, and the nodes counted on the way.
#[derive(Clone, Copy)]
pub struct Spot {
    pub at: usize,
    pub nodes: usize,
}

// The spot behind a step.
fn past_step(w: Spot) -> Spot
    requires { (w.at < 18446744073709551614) × (w.nodes ≤ limits.nodes) }
    ensures { result ≡ record { at = w.at + 2; nodes = w.nodes + 1 } }
{
    Spot {
        at: w.at + 2,
        nodes: w.nodes + 1,
    }
}

// The items from a spot on, up to the end of the input or to a close. A loop, so that siblings take no stack; steps, which are
// most of a run, take no call that comes back here.
#[cycle(pass)]
pub fn pass_sequence(s: &[u8], w: Spot) -> Spot
    requires { (f : Forest) × SequenceFrom s.now w f }
    ensures { (f : Forest) → SequenceFrom s.now w f → PassedOver w f result }
{
    let mut p = w;
    // Stays: each item says where the next one starts, which no range or iterator steps over.
    while p.at < s.len() && !closes(s[p.at]) {
        p = if s[p.at] == Format::STEP {
            past_step(p)
        } else {
            pass_holder(s, p)
        };
    }
    p
}

// The item at a spot.
pub fn pass_item(s: &[u8], w: Spot) -> Spot
    requires { (f : Forest) × ItemFrom s.now w f }
    ensures { (f : Forest) → ItemFrom s.now w f → PassedOver w f result }
{
    let at = w.at;
    if s[at] == Format::STEP {
        return past_step(w);
    }
    pass_holder(s, w)
}

// The group or the repeat at a spot.
#[cycle(pass)]
fn pass_holder(s: &[u8], w: Spot) -> Spot
    requires { (f : Forest) × HolderFrom s.now w f }
    ensures { (f : Forest) → HolderFrom s.now w f → PassedOver w f result }
{
    let at = w.at;
    let nodes = w.nodes;
    if s[at] == Format::REPEAT {
        let count = operand(s, at + 1);
        let body = pass_sequence(
            s,
            Spot {
                at: at + 5,
                nodes: 0,
            },
        );
        return Spot {
            at: body.at + 1,
            nodes: nodes + count * body.nodes,
        };
    }
    // A group is a node itself, before those that it holds.
    let inner = nodes + 1;
    let body = pass_sequence(
        s,
        Spot {
            at: at + 2,
            nodes: inner,
        },
    );
    Spot {
        at: body.at + 1,
        nodes: body.nodes,
    }
}
