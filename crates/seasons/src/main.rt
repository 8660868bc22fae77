// The program of whole seasons: the season run reader, the season reader, the season unroller and the season folder, and what they
// refuse. It prints what it saw, and a line that begins with `difference` where that is not right.
#![tactic(auto)]

mod folded;
mod read;
mod refused;

use format::{Format, Reason};
use std::io;

fn main(rt: HostRuntime) -> io::Result<()> {
    read::runs(&rt)?;
    read::folds(&rt)?;
    read::refused_folds(&rt)?;
    read::unrolled_folds(&rt)?;
    folded::known(&rt)?;
    folded::widest(&rt)?;
    folded::thousand(&rt)?;
    refused::settings(&rt)?;
    refused::commands(&rt)?;
    refused::room(&rt)?;
    most_steps(&rt)
}

// 65,535 steps and 65,536; their label is the byte of a step.
fn most_steps(rt: &impl Print) -> io::Result<()> {
    let most = [Format::STEP; 131070];
    let more = [Format::STEP; 131072];
    let mut out = [0u8; 131072];
    read::most_steps(rt, &most, &more, &mut out)?;
    refused::refuse_run(rt, &more, Reason::TooManyNodes.at(131070))
}
