// The walk that writes. The fold was read before, so the walk refuses nothing: it only looks which item stands where. A
// sequence is a loop over its items, and a group or a repeat holds a sequence; the functions call each other, remaining
// bytes falling.
ghost use Rattle.std.specs.Prelude.{◌≡◌, ◌+◌, ◌*◌, ◌-◌, ◌≤◌, length, take, drop};
ghost use Rattle.std.proofs.lemmas.List.Edits.{sets};
ghost use Rattle.format.specs.Forest.{Forest};
ghost use Rattle.format.specs.Machine.{times};
ghost use Rattle.unroller.specs.inner.Writing.{SequenceFrom, ItemFrom, PassedOver};

use format::{Format, closes};
use walk::operand;

// How far the fold is read, and how far the output is written.
#[derive(Clone, Copy)]
pub struct Place {
    pub at: usize,
    pub to: usize,
}

// Writes `more` further copies of the bytes from `start` to `to` behind them, and gives the place behind the last. One loop
// serves all copies: it reads one copy behind where it writes, and so comes to read what it has written.
fn copy_on(out: &mut [u8], start: usize, to: usize, more: usize) -> usize
    requires { (start ≤ to) × (to + more * (to - start) ≤ length out.old) }
    ensures value { result ≡ to + more * (to - start) }
    ensures out_after { out.new ≡ sets out.old to (times more (drop start (take to out.old))) }
{
    let end = to + more * (to - start);
    for i in to..end {
        out[i] = out[i - (to - start)];
    }
    end
}

// The items from a place on, up to the end of the input or to a close. A loop, so that siblings take no stack.
#[cycle(put)]
pub fn put_sequence(s: &[u8], out: &mut [u8], w: Place) -> Place
    requires { (f : Forest) × SequenceFrom s.now (length out.old) w f }
    ensures { (f : Forest) → SequenceFrom s.now (length out.old) w f → PassedOver out.old out.new w f result }
{
    let mut p = w;
    // Stays: each item says where the next one starts, which no range or iterator steps over.
    while p.at < s.len() && !closes(s[p.at]) {
        p = put_item(s, out, p);
    }
    p
}

// The item at a place. A repeat is unrolled once and then copied, so that its body is walked once whatever its count.
#[cycle(put)]
fn put_item(s: &[u8], out: &mut [u8], w: Place) -> Place
    requires { (f : Forest) × ItemFrom s.now (length out.old) w f }
    ensures { (f : Forest) → ItemFrom s.now (length out.old) w f → PassedOver out.old out.new w f result }
{
    let at = w.at;
    let to = w.to;
    let c = s[at];
    if c == Format::REPEAT {
        let count = operand(s, at + 1);
        let body = put_sequence(s, out, Place { at: at + 5, to });
        let end = copy_on(out, to, body.to, count - 1);
        return Place {
            at: body.at + 1,
            to: end,
        };
    }
    out[to] = c;
    out[to + 1] = s[at + 1];
    let inside = Place {
        at: at + 2,
        to: to + 2,
    };
    if c == Format::STEP {
        return inside;
    }
    let body = put_sequence(s, out, inside);
    let end = body.to;
    out[end] = Format::GROUP_END;
    Place {
        at: body.at + 1,
        to: end + 1,
    }
}
