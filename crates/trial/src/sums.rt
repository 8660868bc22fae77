// What was tried, as it is printed.
use format::{PricedFold, Refusal};
use std::fmt;

// Whether all agreed, and what was tried: runs, their folds, comparisons, and the sums of the cheapest folds' costs and lengths.
// Stays: a difference ends a trial, but what was tried until then is printed too, so the sums are no value of a Result.
#[derive(Clone, Copy)]
pub struct Sums {
    pub right: bool,
    pub runs: u64,
    pub folds: u64,
    compared: u64,
    cost: u64,
    length: u64,
}

impl Sums {
    // Nothing is tried yet.
    pub const NOTHING: Sums = Sums {
        right: true,
        runs: 0,
        folds: 0,
        compared: 0,
        cost: 0,
        length: 0,
    };

    // One run more, with this many folds.
    pub fn run(&mut self, folds: usize) {
        self.runs = self.runs.wrapping_add(1);
        self.folds = self.folds.wrapping_add(folds as u64);
    }

    // One comparison more.
    pub fn compared(&mut self, answer: Result<PricedFold, Refusal>, right: bool) {
        self.compared = self.compared.wrapping_add(1);
        if let Ok(fold) = answer {
            self.cost = self.cost.wrapping_add(fold.cost);
            self.length = self.length.wrapping_add(fold.length as u64);
        }
        self.right &= right;
    }
}

impl fmt::Display for Sums {
    fn fmt<W: fmt::Write>(&self, f: &mut fmt::Formatter<W>) -> fmt::Result {
        write!(
            f,
            "runs {}, folds {}, compared {}, cost {}, length {}",
            self.runs, self.folds, self.compared, self.cost, self.length
        )
    }
}
