// The operands of a repeat: what the command that opens it says, in either family.
ghost use Rattle.std.specs.Prelude.{◌≡◌, ◌&&◌, ◌<◌, eqb, length, get_or};
ghost use Rattle.format.specs.Limits.{in_one_byte};
ghost use Rattle.walk.specs.Walk.{word_at, count_at, width_at};

use format::{Format, opens_short};

// What a repeat's command says of it: the copies of its body, and the body's width.
#[derive(Clone, Copy)]
pub struct Operands {
    pub count: usize,
    pub width: usize,
}

// The byte at an offset as a number; 0 past the end.
fn byte_at(s: &[u8], at: usize) -> usize
    ensures { (result ≡ get_or s.now at 0) × (result < 256) }
{
    match s.get(at) {
        Some(byte) => usize::from(*byte),
        None => 0,
    }
}

// The operand of two bytes at an offset, the high byte first; bytes past the end count as 0.
pub fn operand(s: &[u8], at: usize) -> usize
    ensures { (result ≡ word_at s.now at) × (result < 65536) }
{
    if at < s.len() {
        return usize::from(s[at]) * 256 + byte_at(s, at + 1);
    }
    0
}

// The operands of the repeat whose command stands at an offset, one byte each behind a `22`, else two; bytes past the end count as
// 0.
pub fn operands_at(s: &[u8], at: usize) -> Operands
    requires { at < length s.now }
    ensures count { (result.count ≡ count_at s.now at) × (result.count < 65536) }
    ensures width { (result.width ≡ width_at s.now at) × (result.width < 65536) }
{
    if s[at] == Format::SHORT_REPEAT {
        return Operands {
            count: byte_at(s, at + 1),
            width: byte_at(s, at + 2),
        };
    }
    Operands {
        count: operand(s, at + 1),
        width: operand(s, at + 3),
    }
}

// Whether a repeat is opened by a `20` where its family has a `22` for it.
pub fn has_shorter(short: bool, c: u8, o: Operands) -> bool
    ensures { result ≡ (eqb c 0x20 && (short && in_one_byte o.count o.width)) }
{
    c == Format::REPEAT && opens_short(short, o.count, o.width)
}
