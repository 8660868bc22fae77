// Bytes put into a family, command by command. What has no room is left out and the length is answered all the same, so over an
// empty output the walk only measures.
ghost use Rattle.std.specs.Prelude.{◌≡◌, ◌+◌, ◌<◌, ◌≤◌, length, get_or};
ghost use Rattle.std.proofs.lemmas.List.Edits.{sets};
ghost use Rattle.format.specs.Family.{converted};
ghost use Rattle.put.specs.Bounds.{most_bytes};
ghost use Rattle.convert.specs.inner.Passing.{command_at};

use format::{opens_node, opens_repeat, operand_bytes};
use put::{put_byte, put_open};
use walk::operands_at;

// Writes the form of the bytes in a family at the front of the output, and answers its length.
pub fn put_form(s: &[u8], short: bool, out: &mut [u8]) -> usize
    requires { length (converted short s.now) ≤ most_bytes }
    ensures value { result ≡ length (converted short s.now) }
    ensures out_after { out.new ≡ sets out.old 0 (converted short s.now) }
{
    let mut at = 0;
    let mut to = 0;
    // Stays: each command says where the next one starts, which no range or iterator steps over.
    while at < s.len() {
        to = put_command(s, at, short, out, to);
        at = at + 1 + operand_bytes(s[at]);
    }
    to
}

// Writes the command at an offset, in a family, from the place `to` on, and answers the place behind it.
fn put_command(s: &[u8], at: usize, short: bool, out: &mut [u8], to: usize) -> usize
    requires at_in_bounds { at < length s.now }
    requires at_bound { to + length (command_at short s.now at) ≤ most_bytes }
    ensures value { result ≡ to + length (command_at short s.now at) }
    ensures out_after { out.new ≡ sets out.old to (command_at short s.now at) }
{
    let c = s[at];
    if opens_repeat(true, c) {
        let o = operands_at(s, at);
        return put_open(out, to, short, o.count, o.width);
    }
    put_byte(out, to, c);
    if opens_node(c) {
        put_byte(out, to + 1, label_at(s, at + 1));
        return to + 2;
    }
    to + 1
}

// The label at an offset; 0 past the end.
fn label_at(s: &[u8], at: usize) -> u8
    ensures { result ≡ get_or s.now at 0 }
{
    s.get(at).copied().unwrap_or(0)
}
