// The answers of the library as seven numbers in a lent slice.
ghost use Rattle.std.specs.Prelude.{◌≡◌, ◌++◌, ◌≤◌, length, drop};
ghost use Rattle.format.specs.Limits.{tariff};
ghost use Rattle.format.specs.Answers.{number, run_said, fold_said, written_said, folded_said, tariff_of};
ghost use Rattle.index.specs.Answers.{found_said, indexed_said};
ghost use Rattle.embed.specs.Answers.{entry_count, numbers, with_values, of_run, of_fold, of_written, of_folded, of_found, of_indexed};

use format::{Costs, FoldCounts, PricedFold, Refusal, RunCounts};
use index::FoundNode;

// The entries of an answer.
pub const ENTRIES: usize = 7;
// The status where the lent answer is shorter: nothing was read or written. No refusal has this number.
pub const SHORT: u8 = 255;

// The numbers of an answer. What the values are, each function says.
#[derive(Clone, Copy)]
pub struct Answer {
    pub refusal: u8,
    pub place: usize,
    pub one: u64,
    pub two: u64,
    pub three: u64,
    pub four: u64,
    pub five: u64,
}

// Success, all values 0.
const NOTHING: Answer = Answer {
    refusal: 0,
    place: 0,
    one: 0,
    two: 0,
    three: 0,
    four: 0,
    five: 0,
};

impl From<Refusal> for Answer {
    ghost from_gives = { λ e a. a ≡ with_values (number e.reason) e.place 0 0 0 0 0 };

    fn from(refusal: Refusal) -> Answer {
        Answer {
            refusal: refusal.reason.number(),
            place: refusal.place,
            ..NOTHING
        }
    }
}

// A run reader's answer.
impl From<Result<RunCounts, Refusal>> for Answer {
    ghost from_gives = { λ r a. a ≡ of_run (run_said r) };

    fn from(read: Result<RunCounts, Refusal>) -> Answer {
        match read {
            Ok(run) => Answer {
                one: run.nodes as u64,
                four: run.steps as u64,
                five: run.depth as u64,
                ..NOTHING
            },
            Err(refusal) => Answer::from(refusal),
        }
    }
}

// A fold reader's answer.
impl From<Result<FoldCounts, Refusal>> for Answer {
    ghost from_gives = { λ r a. a ≡ of_fold (fold_said r) };

    fn from(read: Result<FoldCounts, Refusal>) -> Answer {
        match read {
            Ok(fold) => Answer {
                one: fold.nodes as u64,
                two: fold.length as u64,
                three: fold.cost,
                four: fold.steps as u64,
                five: fold.depth as u64,
                ..NOTHING
            },
            Err(refusal) => Answer::from(refusal),
        }
    }
}

// A folder's answer.
impl From<Result<PricedFold, Refusal>> for Answer {
    ghost from_gives = { λ r a. a ≡ of_folded (folded_said r) };

    fn from(folded: Result<PricedFold, Refusal>) -> Answer {
        match folded {
            Ok(fold) => Answer {
                two: fold.length as u64,
                three: fold.cost,
                ..NOTHING
            },
            Err(refusal) => Answer::from(refusal),
        }
    }
}

// The finder's answer.
impl From<Result<FoundNode, Refusal>> for Answer {
    ghost from_gives = { λ r a. a ≡ of_found (found_said r) };

    fn from(found: Result<FoundNode, Refusal>) -> Answer {
        match found {
            Ok(node) => Answer {
                one: u64::from(node.label),
                two: u64::from(node.command),
                three: node.offset as u64,
                ..NOTHING
            },
            Err(refusal) => Answer::from(refusal),
        }
    }
}

impl Answer {
    // The answer where one text is written: its length.
    pub fn of_text(written: Result<usize, Refusal>) -> Answer
        ensures { result ≡ of_written (written_said written) }
    {
        match written {
            Ok(length) => Answer {
                two: length as u64,
                ..NOTHING
            },
            Err(refusal) => Answer::from(refusal),
        }
    }

    // The index builder's answer: the number of entries.
    pub fn of_index(indexed: Result<usize, Refusal>) -> Answer
        ensures { result ≡ of_indexed (indexed_said indexed) }
    {
        match indexed {
            Ok(entries) => Answer {
                one: entries as u64,
                ..NOTHING
            },
            Err(refusal) => Answer::from(refusal),
        }
    }

    // Puts an answer into the first entries of the lent slice, and gives the status.
    pub fn store(self, answer: &mut [u64]) -> u8
        requires { entry_count ≤ length answer.old }
        ensures status { result ≡ self.refusal }
        ensures stored { answer.new ≡ numbers self ++ drop entry_count answer.old }
    {
        answer[0] = u64::from(self.refusal);
        answer[1] = self.place as u64;
        answer[2] = self.one;
        answer[3] = self.two;
        answer[4] = self.three;
        answer[5] = self.four;
        answer[6] = self.five;
        self.refusal
    }
}

// The lent costs of a call: C hands each table and price by itself.
pub fn lent<'a>(
    steps: &'a [u16],
    groups: &'a [u16],
    marks: &'a [u8],
    first: u16,
    each: u16,
) -> Costs<'a>
    ensures { tariff_of result ≡ tariff steps.now groups.now marks.now first each }
{
    Costs {
        steps,
        groups,
        marks,
        first,
        each,
    }
}
