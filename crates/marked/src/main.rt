// The program of marks: folds of runs with marked labels, and the refusals of marks and of marked labels inside repeats. It prints
// what it saw, and a line that begins with `difference` where that is not right.
#![tactic(auto)]

mod folds;
mod refused;

use std::io;

fn main(rt: HostRuntime) -> io::Result<()> {
    folds::folds(&rt)?;
    refused::wrong_marks(&rt)?;
    refused::repeated(&rt)
}
