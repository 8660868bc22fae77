// The costs that are lent, and the marks of the labels.
ghost use Rattle.std.specs.Prelude.{◌≡◌};
ghost use Rattle.format.specs.Limits.{marked_in};
ghost use Rattle.format.specs.Readings.{no_costs};
ghost use Rattle.format.specs.Answers.{tariff_of};

// What a step and what a group costs by its label; the marks of the labels, 1 for one that may stand in no repeat; the price of a
// repeat of two copies, and of each copy more.
#[derive(Clone, Copy)]
pub struct Costs<'a> {
    pub steps: &'a [u16],
    pub groups: &'a [u16],
    pub marks: &'a [u8],
    pub first: u16,
    pub each: u16,
}

impl Costs<'_> {
    // Nothing has a price, and no label is marked.
    pub fn none() -> Costs<'static>
        ensures { tariff_of result ≡ no_costs }
    {
        Costs {
            steps: &[],
            groups: &[],
            marks: &[],
            first: 0,
            each: 0,
        }
    }
}

// Whether a label is marked; those past the end of the marks are free.
pub fn is_marked(marks: &[u8], label: u8) -> bool
    ensures { result ≡ marked_in marks.now label }
{
    marks.get(usize::from(label)) == Some(&1)
}
