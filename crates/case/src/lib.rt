// A known fold: what the folder writes for a run, compared with bytes and a cost that are known, read and unrolled back. The programs
// of known folds are made of these.
#![tactic(auto)]

use format::{Costs, Format};
use harness::{alike, begins, fold_checked, unrolls};
use print::{Refused, Setting, UNIT, difference, judge};
use reader::{read_fold, read_run};
use std::io;

// A run, what it is folded at, and the fold and the cost that are known.
#[derive(Clone, Copy)]
pub struct Case<'a> {
    pub name: &'a str,
    pub run: &'a [u8],
    pub limit: usize,
    pub costs: Costs<'a>,
    pub fold: &'a [u8],
    pub cost: u64,
}

// What is lent for a case: the folder's work and output, and the unroller's output.
#[derive(Drop)]
pub struct Lent<'a> {
    pub costs: &'a mut [u32],
    pub choices: &'a mut [u32],
    pub out: &'a mut [u8],
    pub text: &'a mut [u8],
}

impl<'a> Case<'a> {
    // At unit prices and the largest limit.
    pub fn unit(name: &'a str, run: &'a [u8], fold: &'a [u8], cost: u64) -> Case<'a> {
        Case {
            name,
            run,
            limit: Format::WIDTH,
            costs: UNIT,
            fold,
            cost,
        }
    }

    // Prints what the run is folded at; what a group costs only where that is not 1.
    fn show_setting(&self, rt: &impl Print) -> io::Result<()> {
        print!(rt; "{}{}", self.name, Setting(self.limit, &self.costs))?;
        if let Some(group) = self.costs.groups.first()
            && *group != 1
        {
            print!(rt; ", groups {group}")?;
        }
        Ok(())
    }

    // Whether the fold has this cost by the fold reader, and its run's nodes, bytes, steps and depth.
    fn reads(&self) -> bool {
        let read = read_fold::<Format>(self.fold, self.limit, &self.costs);
        alike(read, self.run) && read.is_ok_and(|counts| counts.cost == self.cost)
    }

    // The case with what is lent: prints the folder's answer and the run's steps and depth, and says where that is not right.
    pub fn known_in(&self, rt: &impl Print, lent: Lent) -> io::Result<()> {
        let Lent {
            costs,
            choices,
            out,
            text,
        } = lent;
        let checked = fold_checked(self.run, self.limit, &self.costs, costs, choices, out);
        self.show_setting(rt)?;
        let (Ok(written), Ok(counts)) = (checked.answer, read_run::<Format>(self.run)) else {
            println!(rt; ": refused {}", Refused(checked.answer.err()))?;
            return difference(rt, self.name);
        };
        println!(rt;
            ": cost {}, length {}, steps {}, depth {}",
            written.cost, written.length, counts.steps, counts.depth
        )?;
        let right = checked.right
            && written.cost == self.cost
            && begins(out, written.length, self.fold)
            && self.reads()
            && unrolls(self.fold, self.limit, self.run, text);
        judge(rt, self.name, right)
    }

    // The same with room for 22 nodes.
    pub fn known(&self, rt: &impl Print) -> io::Result<()> {
        let lent = Lent {
            costs: &mut [0; 260],
            choices: &mut [0; 260],
            out: &mut [0; 80],
            text: &mut [0; 80],
        };
        self.known_in(rt, lent)
    }
}
