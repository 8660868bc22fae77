// The walk over an input: every test of docs/REFUSALS.md, in its order, and the counts. It is the one walk of all readers, which
// stand over it and turn what it came to into their answers.
#![tactic(auto)]

mod command;
mod counts;
mod operands;
mod walk;

ghost use Rattle.walk.specs.Walk.{Sane, Whole, rules_of, ended};

use command::Depth;
pub use command::{Terms, price};
use format::{Format, Reason, Refusal, Tally};
pub use operands::{operand, operands_at};
use walk::sequence;

// The whole input: the top sequence, then the end and no close.
pub fn whole(s: &[u8], a: &Terms) -> Result<Tally, Refusal>
    requires { Sane a.now }
    ensures { Whole (rules_of a.now) s.now (ended result) }
{
    let top = Depth {
        groups: 0,
        repeats: 0,
    };
    let read = sequence(s, a, 0, top, Tally::none())?;
    let at = read.at;
    if at == s.len() {
        return Ok(read.tally);
    }
    if s[at] == Format::GROUP_END || a.folds {
        return Err(Reason::WrongClose.at(at));
    }
    Err(Reason::RepeatInRun.at(at))
}
