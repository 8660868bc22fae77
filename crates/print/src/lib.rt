// What the programs of known answers share: unit prices, what they print again and again, and the loud line of a difference.
#![tactic(auto)]

use format::{Costs, Refusal};
use std::{fmt, io};

// Every step and every group costs 1, and so does a repeat, however many copies it has; no label is marked.
pub const UNIT: Costs<'static> = Costs {
    steps: &[1; 256],
    groups: &[1; 256],
    marks: &[0; 256],
    first: 1,
    each: 0,
};

// What a run or a fold is read or folded at: the width limit and the repeat prices.
#[derive(Clone, Copy)]
pub struct Setting<'a>(pub usize, pub &'a Costs<'a>);

impl fmt::Display for Setting<'_> {
    fn fmt<W: fmt::Write>(&self, f: &mut fmt::Formatter<W>) -> fmt::Result {
        let Setting(limit, costs) = *self;
        write!(
            f,
            ", limit {limit}, first {}, each {}",
            costs.first, costs.each
        )
    }
}

// An input: its first ten bytes in hexadecimal, and how many there are where some are left out; `-` for the empty one.
#[derive(Clone, Copy)]
pub struct Bytes<'a>(pub &'a [u8]);

impl fmt::Display for Bytes<'_> {
    fn fmt<W: fmt::Write>(&self, f: &mut fmt::Formatter<W>) -> fmt::Result {
        if self.0.is_empty() {
            return f.write_str("-");
        }
        for byte in self.0.iter().take(10) {
            write!(f, "{byte:02x}")?;
        }
        if 10 < self.0.len() {
            write!(f, ".. of {} bytes", self.0.len())?;
        }
        Ok(())
    }
}

// The refusal of an answer by its number and its place; 0 at 0 where there is none.
#[derive(Clone, Copy)]
pub struct Refused(pub Option<Refusal>);

impl fmt::Display for Refused {
    fn fmt<W: fmt::Write>(&self, f: &mut fmt::Formatter<W>) -> fmt::Result {
        match self.0 {
            Some(refusal) => write!(f, "{} at {}", refusal.reason.number(), refusal.place),
            None => f.write_str("0 at 0"),
        }
    }
}

// Says that something differs, in the case whose line stands before.
pub fn difference(rt: &impl Print, name: &str) -> io::Result<()> {
    println!(rt; "difference in {name}")
}

// The same where it is not right.
pub fn judge(rt: &impl Print, name: &str, right: bool) -> io::Result<()> {
    if right {
        return Ok(());
    }
    difference(rt, name)
}
