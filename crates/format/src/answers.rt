// What the readers, the unroller and the folders answer: the values, or a refusal. docs/REFUSALS.md has the refusals by number.
ghost use Rattle.std.specs.Prelude.{◌≡◌};
ghost use Rattle.format.specs.Answers.{number};

use crate::tally::Tally;

// Why an input is refused, in the order of the numbers.
#[derive(Clone, Copy, Debug, PartialEq, Eq)]
pub enum Reason {
    UnknownCommand = 1,
    RepeatInRun = 2,
    Unfinished = 3,
    WrongClose = 4,
    Empty = 5,
    TooFewCopies = 6,
    TooWide = 7,
    TooDeep = 8,
    UntrueWidth = 9,
    TooManyNodes = 10,
    StepCosts = 11,
    LimitTooHigh = 12,
    ShortWork = 13,
    ShortOutput = 14,
    GroupCosts = 15,
    NoSuchNode = 16,
    NotTheIndex = 17,
    Marks = 18,
    MarkedInRepeat = 19,
    NotShortest = 20,
    GroupInSeason = 21,
}

impl Reason {
    // The number of a refusal.
    pub fn number(self) -> u8
        ensures { result ≡ number self }
    {
        self as u8
    }

    // A refusal for this reason, at a place.
    pub fn at(self, place: usize) -> Refusal
        ensures { result ≡ record { reason = self; place = place } }
    {
        Refusal {
            reason: self,
            place,
        }
    }
}

// A refusal: why, and the place in the input.
#[derive(Clone, Copy, Debug, PartialEq, Eq)]
pub struct Refusal {
    pub reason: Reason,
    pub place: usize,
}

// What is counted of a run: its nodes, how many of them are steps, and the most groups open together.
#[derive(Clone, Copy, Debug, PartialEq, Eq)]
pub struct RunCounts {
    pub nodes: usize,
    pub steps: usize,
    pub depth: usize,
}

impl From<Tally> for RunCounts {
    ghost from_gives = { λ t r. r ≡ record { nodes = t.nodes; steps = t.steps; depth = t.depth } };

    fn from(t: Tally) -> RunCounts {
        RunCounts {
            nodes: t.nodes,
            steps: t.steps,
            depth: t.depth,
        }
    }
}

// What is counted of a fold: the nodes and the bytes of its run, its own cost, and the run's steps and depth.
#[derive(Clone, Copy, Debug, PartialEq, Eq)]
pub struct FoldCounts {
    pub nodes: usize,
    pub length: usize,
    pub cost: u64,
    pub steps: usize,
    pub depth: usize,
}

impl From<Tally> for FoldCounts {
    ghost from_gives = { λ t r. r ≡ record { nodes = t.nodes; length = t.size; cost = t.cost; steps = t.steps; depth = t.depth } };

    fn from(t: Tally) -> FoldCounts {
        FoldCounts {
            nodes: t.nodes,
            length: t.size,
            cost: t.cost,
            steps: t.steps,
            depth: t.depth,
        }
    }
}

// A fold that was written: its length and its cost.
#[derive(Clone, Copy, Debug, PartialEq, Eq)]
pub struct PricedFold {
    pub length: usize,
    pub cost: u64,
}
