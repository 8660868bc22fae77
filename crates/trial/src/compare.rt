// The folder against the trial of every fold: the best of all folds of a run, at several settings.
use crate::best::{Priced, best_of};
use crate::setting::Setting;
use crate::sums::Sums;
use crate::trials::Trial;
use format::{PricedFold, Refusal};
use harness::{begins, fold_checked};
use std::io;
use strings::{Fold, gather};

// Whether the folder's answer is that of the best fold, and what it wrote that fold.
fn agree(answer: Result<PricedFold, Refusal>, out: &[u8], best: Option<Priced>) -> bool {
    let (Ok(fold), Some(best)) = (answer, best) else {
        return false;
    };
    fold.cost == best.cost && begins(out, fold.length, best.fold)
}

// The folder's fold of a run at one setting, against the best of all.
fn compare(run: &[u8], folds: &[Fold], setting: &Setting, sums: &mut Sums) {
    let tariff = setting.costs();
    let best = best_of(folds, setting.limit, &tariff);
    let mut costs = [0u32; 60];
    let mut choices = [0u32; 60];
    let mut out = [0u8; 64];
    let checked = fold_checked(
        run,
        setting.limit,
        &tariff,
        &mut costs,
        &mut choices,
        &mut out,
    );
    let right = checked.right && agree(checked.answer, &out, best);
    sums.compared(checked.answer, right);
}

// The folder's folds of a run at all settings of a trial, against all its folds.
fn compare_all(trial: &Trial, run: &[u8], folds: &[Fold], sums: &mut Sums) {
    for number in trial.from..trial.to {
        match Setting::new(number, trial.marks) {
            Some(setting) => compare(run, folds, &setting, sums),
            None => sums.right = false,
        }
    }
}

// The loud line of a difference: the bytes of the run on which the folder and the trial of every fold do not agree.
fn differ(rt: &impl Print, run: &[u8]) -> io::Result<()> {
    print!(rt; "difference in the folder and the trial of every fold: ")?;
    for b in run {
        print!(rt; "{b:02x}")?;
    }
    println!(rt; "")
}

// One run of so many nodes, at the settings of a trial, against all its folds.
pub fn try_run(
    rt: &impl Print,
    trial: &Trial,
    run: &[u8],
    nodes: u8,
    room: &mut [Fold],
    sums: &mut Sums,
) -> io::Result<()> {
    match gather(run, nodes, room) {
        Some(folds) => {
            sums.run(folds.len());
            compare_all(trial, run, folds, sums);
        }
        None => sums.right = false,
    }
    if !sums.right {
        differ(rt, run)?;
    }
    Ok(())
}
