// What is checked before the first command.
ghost use Rattle.std.specs.Prelude.{◌≡◌, IfErr};
ghost use Rattle.format.specs.Limits.{limits};
ghost use Rattle.format.specs.Answers.{tariff_of, refused_by};
ghost use Rattle.format.specs.Machine.{first_of};
ghost use Rattle.format.specs.Head.{head_checks, marks_in_order, full_head};

use crate::answers::{Reason, Refusal};
use crate::costs::Costs;
use crate::kind::{Format, Limits};

// What is checked before the first command, of what an entry point takes: the entries of the two lent cost tables, that of
// steps and that of groups, the width limit, and whether the lent marks are in order. For a subject that it does not take, an
// entry point hands a value that no check refuses.
#[derive(Clone, Copy)]
pub struct Head {
    pub steps: usize,
    pub groups: usize,
    pub limit: usize,
    pub marks: bool,
}

// Whether marks are in order: one for each label, and each is 0 or 1.
pub fn marks_in_order(marks: &[u8]) -> bool
    ensures { result ≡ marks_in_order limits marks.now }
{
    marks.len() == Format::LABELS && marks.iter().all(|mark| *mark <= 1)
}

impl Head {
    // The head of an entry point that takes costs and a limit.
    pub fn full(limit: usize, costs: &Costs) -> Head
        ensures { result ≡ full_head (tariff_of costs.now) limit }
    {
        Head {
            steps: costs.steps.len(),
            groups: costs.groups.len(),
            limit,
            marks: marks_in_order(costs.marks),
        }
    }

    // The refusal of a head, at place 0: 11 for the table of steps, then 15 for that of groups, then 12 for the limit, then 18 for
    // the marks.
    #[tactic(auto, unfolding(crate::specs::Head::head_checks))]
    pub fn check(self, bounds: Limits) -> Result<(), Refusal>
        ensures number { refused_by result ≡ first_of (head_checks bounds self) }
        ensures ahead { IfErr result (λ e. e.place ≡ 0) }
    {
        if self.steps != bounds.labels {
            return Err(Reason::StepCosts.at(0));
        }
        if self.groups != bounds.labels {
            return Err(Reason::GroupCosts.at(0));
        }
        if bounds.width < self.limit {
            return Err(Reason::LimitTooHigh.at(0));
        }
        if !self.marks {
            return Err(Reason::Marks.at(0));
        }
        Ok(())
    }
}
