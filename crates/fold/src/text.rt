// The text that the fold program prints: decimal numbers, capital hexadecimal, and the lines made of them. Each function
// writes at a place of the lent text and gives the place behind what it wrote.
// Stays: bytes in a lent slice and no formatter, since `printed` says each byte, and nothing is known of what `fmt` writes.
ghost use Rattle.std.specs.Prelude.{◌≡◌, ◌+◌, ◌*◌, ◌≤◌, ◌<◌, length};
ghost use Rattle.fold.specs.Text.{digit, decimal, hexadecimal, fold_text, line, three_lines, refusal_line};
ghost use Rattle.fold.specs.PutText.{PutText};
ghost use Rattle.format.specs.Answers.{number};

use format::Refusal;

// The digit of a number below 16: `0` to `9`, then `A` to `F`.
fn digit_of(d: u8) -> u8
    requires { d < 16 }
    ensures { result ≡ digit d }
{
    if d < 10 { 48 + d } else { 55 + d }
}

// Some bytes as they stand.
fn put_bytes(bytes: &[u8], out: &mut [u8], at: usize) -> usize
    requires { at + length bytes.now ≤ length out.old }
    ensures { PutText out.old out.new at bytes.now result }
{
    for (i, b) in bytes.iter().enumerate() {
        out[at + i] = *b;
    }
    at + bytes.len()
}

// A number in decimal: the digits ahead of the last, then the last.
fn put_decimal(n: u64, out: &mut [u8], at: usize) -> usize
    requires { at + length (decimal n) ≤ length out.old }
    ensures { PutText out.old out.new at (decimal n) result }
{
    if n < 10 {
        out[at] = digit_of(n as u8);
        return at + 1;
    }
    let last = put_decimal(n / 10, out, at);
    out[last] = digit_of((n % 10) as u8);
    last + 1
}

// Each byte by its two digits in capital hexadecimal.
fn put_hexadecimal(bytes: &[u8], out: &mut [u8], at: usize) -> usize
    requires { at + 2 * length bytes.now ≤ length out.old }
    ensures { PutText out.old out.new at (hexadecimal bytes.now) result }
{
    let mut to = at;
    for b in bytes {
        out[to] = digit_of(*b / 16);
        out[to + 1] = digit_of(*b % 16);
        to += 2;
    }
    to
}

// A fold's bytes in capital hexadecimal, `-` if there are none.
fn put_fold_text(fold: &[u8], out: &mut [u8], at: usize) -> usize
    requires { at + 1 + 2 * length fold.now ≤ length out.old }
    ensures { PutText out.old out.new at (fold_text fold.now) result }
{
    if fold.len() == 0 {
        out[at] = 45;
        return at + 1;
    }
    put_hexadecimal(fold, out, at)
}

// The line of a number: a word, the number and the end of the line.
fn put_number(word: &[u8], n: u64, out: &mut [u8], at: usize) -> usize
    requires { at + length word.now + 21 ≤ length out.old }
    ensures { PutText out.old out.new at (line word.now (decimal n)) result }
{
    let number = put_bytes(word, out, at);
    let end = put_decimal(n, out, number);
    put_bytes(b"\n", out, end)
}

// The three lines of a fold: the run's nodes, the fold's cost and its bytes.
pub fn put_report(nodes: u64, cost: u64, fold: &[u8], out: &mut [u8]) -> usize
    requires { 60 + 2 * length fold.now ≤ length out.old }
    ensures { PutText out.old out.new 0 (three_lines nodes cost fold.now) result }
{
    let second = put_number(b"nodes ", nodes, out, 0);
    let third = put_number(b"cost ", cost, out, second);
    let bytes = put_bytes(b"fold ", out, third);
    let end = put_fold_text(fold, out, bytes);
    put_bytes(b"\n", out, end)
}

// The one line of a refusal: number and place.
pub fn put_refusal(refusal: Refusal, out: &mut [u8]) -> usize
    requires { 60 ≤ length out.old }
    ensures { PutText out.old out.new 0 (refusal_line (number refusal.reason) refusal.place) result }
{
    let first = put_bytes(b"refused ", out, 0);
    let behind = put_decimal(u64::from(refusal.reason.number()), out, first);
    put_number(b" at ", refusal.place as u64, out, behind)
}
