// All short runs over two labels, by the same search over command strings as their folds.
use crate::compare::try_run;
use crate::sums::Sums;
use crate::trials::Trial;
use format::Format;
use reader::read_run;
use std::io;
use strings::{Command, Entry, Fold, Judgement, Next, Search, TURNS};

// The folds that a run may have here.
const FOLDS: usize = 1200;

// The nodes of a string that ends in this command; none where the trial does not want it.
fn nodes_of(trial: &Trial, last: Option<(usize, Entry<u8>)>) -> Option<u8> {
    let Some((_, last)) = last else {
        return Some(0);
    };
    let nodes = match last.command {
        Command::Step(_) => last.before.saturating_add(1),
        _ if !trial.groups => return None,
        Command::Group(_) => last.before.saturating_add(1),
        _ => last.before,
    };
    (nodes <= trial.most).then_some(nodes)
}

// A string is gone on from where it is a run or may be the beginning of one. A run is tried.
fn look(
    rt: &impl Print,
    trial: &Trial,
    search: &mut Search<u8>,
    room: &mut [Fold],
    sums: &mut Sums,
) -> io::Result<()> {
    let Some(nodes) = nodes_of(trial, search.last()) else {
        search.next = Next::Back;
        return Ok(());
    };
    match Judgement::of(read_run::<Format>(search.string())) {
        Judgement::Neither => search.next = Next::Back,
        Judgement::Beginning => search.deeper(nodes),
        Judgement::Whole => {
            try_run(rt, trial, search.string(), nodes, room, sums)?;
            search.deeper(nodes);
        }
    }
    Ok(())
}

// Tries all runs of a trial, up to the first difference. Runs have no repeats.
pub fn try_runs(rt: &impl Print, trial: &Trial) -> io::Result<Sums> {
    let mut room = [Fold::EMPTY; FOLDS];
    let mut search = Search::new(0);
    let mut sums = Sums::NOTHING;
    for _ in 0..TURNS {
        match search.next {
            Next::Look => look(rt, trial, &mut search, &mut room, &mut sums)?,
            Next::Back => search.retry(0),
            Next::Done | Next::Short => break,
        }
        if !sums.right {
            break;
        }
    }
    Ok(sums)
}
