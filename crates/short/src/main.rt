// The program of short folds: folds and their short forms there and back, the short folder, and the refusals of the short family.
// It prints what it saw, and a line that begins with `difference` where that is not right.
#![tactic(auto)]

mod folded;
mod forms;
mod refused;

use std::io;

fn main(rt: HostRuntime) -> io::Result<()> {
    forms::forms(&rt)?;
    folded::folded(&rt)?;
    refused::too_short(&rt)?;
    refused::short_reader(&rt)?;
    refused::elsewhere(&rt)
}
