// The trial of short runs: the folder on all of them, against every fold that each has. It prints what was tried, and a line
// that begins with `difference` where the two do not agree.
#![tactic(auto)]

mod best;
mod compare;
mod runs;
mod setting;
mod sums;
mod trials;

use runs::try_runs;
use std::io;
use trials::TRIALS;

fn main(rt: HostRuntime) -> io::Result<()> {
    for trial in &TRIALS {
        let name = trial.name;
        let sums = try_runs(&rt, trial)?;
        println!(rt; "{name}: {sums}")?;
    }
    Ok(())
}
