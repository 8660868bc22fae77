// What is counted while a sequence is read.
ghost use Rattle.std.specs.Prelude.{◌≡◌};
ghost use Rattle.format.specs.Machine.{none};

// What is counted while a sequence is read: the siblings of the innermost level, and of all that was read the nodes,
// the run's length in bytes, the cost, the nodes that are steps, an open repeat at one pass; and the most groups that were
// open together.
#[derive(Clone, Copy, Default)]
pub struct Tally {
    pub siblings: usize,
    pub nodes: usize,
    pub size: usize,
    pub cost: u64,
    pub steps: usize,
    pub depth: usize,
}

impl Tally {
    // Nothing counted.
    pub fn none() -> Tally
        ensures { result ≡ none }
    {
        Tally::default()
    }
}
