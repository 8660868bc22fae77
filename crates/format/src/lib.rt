// The format: its limits, commands, costs and answers, each named once. All crates use these names and the contracts cite them.
#![tactic(auto)]

mod answers;
mod commands;
mod costs;
mod head;
mod kind;
mod tally;

pub use answers::{FoldCounts, PricedFold, Reason, Refusal, RunCounts};
pub use commands::{closes, opens_node, opens_repeat, opens_short, operand_bytes};
pub use costs::{Costs, is_marked};
pub use head::{Head, marks_in_order};
pub use kind::{Format, Kind, Limits, Season};
pub use tally::Tally;
