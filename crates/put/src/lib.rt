// Bytes put into a lent output, as far as it has room: one byte, a number of two, and the open of a repeat in either family. This
// is the one place where a repeat's open is written.
#![tactic(auto)]

ghost use Rattle.std.specs.Prelude.{◌≡◌, [], ◌+◌, ◌<◌, ◌≤◌, set};
ghost use Rattle.std.proofs.lemmas.List.Edits.{sets};
ghost use Rattle.format.specs.Forest.{two_bytes, opening, opening_size};
ghost use Rattle.put.specs.Bounds.{most_bytes};

use format::{Format, opens_short};

// Writes the open of a repeat, count and width with it, and answers the place behind it: in the short family a `22` where a byte
// each holds them, else a `20`.
pub fn put_open(out: &mut [u8], to: usize, short: bool, h: usize, w: usize) -> usize
    requires { (to + opening_size short h w ≤ most_bytes) × (h < 65536) × (w < 65536) }
    ensures value { result ≡ to + opening_size short h w }
    ensures out_after { out.new ≡ sets out.old to (opening short h w []) }
{
    if opens_short(short, h, w) {
        let count = h as u8;
        let width = w as u8;
        put_byte(out, to, Format::SHORT_REPEAT);
        put_byte(out, to + 1, count);
        put_byte(out, to + 2, width);
        return to + 3;
    }
    put_byte(out, to, Format::REPEAT);
    put_two(out, to + 1, h);
    put_two(out, to + 3, w);
    to + 5
}

// Writes a number as two bytes, the high one first.
fn put_two(out: &mut [u8], at: usize, n: usize)
    requires { (at + 2 ≤ most_bytes) × (n < 65536) }
    ensures { out.new ≡ sets out.old at (two_bytes n []) }
{
    let [high, low] = (n as u16).to_be_bytes();
    put_byte(out, at, high);
    put_byte(out, at + 1, low);
}

// Writes one byte where the output has that place, and nothing past its end.
pub fn put_byte(out: &mut [u8], at: usize, b: u8)
    ensures { out.new ≡ set out.old at b }
{
    // Stays: with `get_mut` the proof does not close, since the clause says nothing of the slice after the write.
    if at < out.len() {
        out[at] = b;
    }
}
