// All folds of a run: the command strings that the fold reader accepts, by a search that follows the run command by command. It
// gives a string up where the reader refuses it or where what it unrolls to leaves the run or is too long.
use crate::pool::{Fold, Folds};
use crate::search::{Judgement, Next, Search, TURNS};
use crate::trace::{Trace, follow};
use format::Format;
use harness::{alike, unrolls};
use print::UNIT;
use reader::read_fold;

// What a string that follows the run up to a place is, of a fold of the run.
fn judge(run: &[u8], string: &[u8], at: usize) -> Judgement {
    match Judgement::of(read_fold::<Format>(string, Format::WIDTH, &UNIT)) {
        Judgement::Whole if at < run.len() => Judgement::Beginning,
        judgement => judgement,
    }
}

// Whether the unroller agrees that a fold is one of the run, and whether the readers give both the same nodes, bytes, steps and
// depth.
fn confirmed(fold: &[u8], run: &[u8]) -> bool {
    let mut text = [0u8; 64];
    alike(read_fold::<Format>(fold, Format::WIDTH, &UNIT), run)
        && unrolls(fold, Format::WIDTH, run, &mut text)
}

// Keeps a fold. The search ends short where there is no room, or where unroller or readers do not agree.
fn keep(run: &[u8], fold: &[u8], folds: &mut Folds) -> Next {
    if folds.keep(fold).is_some() && confirmed(fold, run) {
        Next::Back
    } else {
        Next::Short
    }
}

// A string that follows the run is gone on from, is kept, or is spent.
fn look(run: &[u8], search: &mut Search<Trace>, folds: &mut Folds) {
    let Some(trace) = follow(run, search) else {
        search.next = Next::Back;
        return;
    };
    match judge(run, search.string(), trace.at) {
        Judgement::Beginning => search.deeper(trace),
        Judgement::Whole => search.next = keep(run, search.string(), folds),
        Judgement::Neither => search.next = Next::Back,
    }
}

// All folds of a run, in lent memory; counts and widths go up to `most`, the run's nodes. None where the search ends short.
pub fn gather<'a>(run: &[u8], most: u8, room: &'a mut [Fold]) -> Option<&'a [Fold]> {
    let mut search = Search::new(Trace::start(run));
    let mut folds = Folds::new(room);
    for _ in 0..TURNS {
        match search.next {
            Next::Look => look(run, &mut search, &mut folds),
            Next::Back => search.retry(most),
            Next::Done | Next::Short => break,
        }
    }
    (search.next == Next::Done).then_some(folds.found())
}
