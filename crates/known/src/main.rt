// The program of known folds: the folds of docs/FORMAT.md and the refusals of docs/REFUSALS.md but for those of marks, the parts of
// nodes, and nodes by their positions. It prints what it saw, and a line that begins with `difference` where that is not right.
#![tactic(auto)]

mod cases;
mod finding;
mod parts;
mod runs;

use std::io;

fn main(rt: HostRuntime) -> io::Result<()> {
    cases::computed(&rt)?;
    cases::longer(&rt)?;
    cases::deep(&rt)?;
    cases::thousand(&rt)?;
    refusals::commands(&rt)?;
    refusals::settings(&rt)?;
    refusals::room(&rt)?;
    refusals::positions(&rt)?;
    parts::parts(&rt)?;
    finding::finding(&rt)
}
