// The entries of an index, as they are lent and printed.
use format::Refusal;
use index::{FoundNode, find};
use std::fmt;

// What stands in the slices that are lent for an index before a call.
pub const FILLED: u32 = 0xa5a5a5a5;

// Whether nothing was written to a slice that was filled, from a place on.
pub fn still_filled(s: &[u32], from: usize) -> bool {
    s.iter().skip(from).all(|entry| *entry == FILLED)
}

// The two slices that are lent to the finder.
#[derive(Clone, Copy)]
pub struct Index<'a> {
    pub offsets: &'a [u32],
    pub before: &'a [u32],
}

impl<'a> Index<'a> {
    // The first entries of either slice, as many as are said; none of one that has fewer.
    pub fn front(self, offsets: usize, before: usize) -> Index<'a> {
        Index {
            offsets: self.offsets.get(..offsets).unwrap_or(&[]),
            before: self.before.get(..before).unwrap_or(&[]),
        }
    }

    // The finder with these slices.
    pub fn find(self, fold: &[u8], position: u64) -> Result<FoundNode, Refusal> {
        find(fold, self.offsets, self.before, position)
    }
}

impl fmt::Display for Index<'_> {
    fn fmt<W: fmt::Write>(&self, f: &mut fmt::Formatter<W>) -> fmt::Result {
        write!(
            f,
            "offsets{}, before{}",
            Entries(self.offsets),
            Entries(self.before)
        )
    }
}

// The entries of one slice.
#[derive(Clone, Copy)]
struct Entries<'a>(&'a [u32]);

impl fmt::Display for Entries<'_> {
    fn fmt<W: fmt::Write>(&self, f: &mut fmt::Formatter<W>) -> fmt::Result {
        if self.0.is_empty() {
            return f.write_str(" none");
        }
        for entry in self.0 {
            write!(f, " {entry}")?;
        }
        Ok(())
    }
}
