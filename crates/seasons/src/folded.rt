// Season runs and their cheapest folds, as the season folder writes them; every step costs 1.
use format::{Costs, Format, Season};
use harness::{Checked, begins, cleared, fill_bytes, fill_words, untouched};
use print::{Refused, Setting, UNIT, difference, judge};
use season::fold_season;
use std::io;

// A run, what it is folded at, and how many entries of the work are then cleared: 256 for each step and one time more.
#[derive(Clone, Copy)]
pub struct Call<'a> {
    pub run: &'a [u8],
    pub limit: usize,
    pub costs: Costs<'a>,
    pub used: usize,
}

impl<'a> Call<'a> {
    // At unit prices and the largest limit.
    pub fn unit(run: &'a [u8], used: usize) -> Call<'a> {
        Call {
            run,
            limit: Season::WIDTH,
            costs: UNIT,
            used,
        }
    }

    // The season folder on filled slices: its answer, and whether the entries of the work that are used are cleared, and all others
    // and the output behind the fold are as they were.
    pub fn fold_checked(&self, work: &mut [u32], out: &mut [u8]) -> Checked {
        fill_words(work);
        fill_bytes(out);
        let answer = fold_season(self.run, self.limit, &self.costs, work, out);
        let written = answer.map_or(0, |fold| fold.length);
        Checked {
            answer,
            right: cleared(work, self.used) && untouched(out, written),
        }
    }

    // A run that folds to this fold at this cost, with what is lent.
    fn folds_in(
        &self,
        rt: &impl Print,
        name: &str,
        fold: &[u8],
        cost: u64,
        work: &mut [u32],
        out: &mut [u8],
    ) -> io::Result<()> {
        let checked = self.fold_checked(work, out);
        print!(rt; "{name}{}: ", Setting(self.limit, &self.costs))?;
        let Ok(written) = checked.answer else {
            println!(rt; "refused {}", Refused(checked.answer.err()))?;
            return difference(rt, name);
        };
        println!(rt; "cost {}, length {}", written.cost, written.length)?;
        let right = checked.right && written.cost == cost && begins(out, written.length, fold);
        judge(rt, name, right)
    }

    // The same with room enough for 15 steps.
    fn folds_to(&self, rt: &impl Print, name: &str, fold: &[u8], cost: u64) -> io::Result<()> {
        self.folds_in(rt, name, fold, cost, &mut [0; 4097], &mut [0; 64])
    }
}

// The known folds of flat runs, of the steps a, b and c with the labels 01, 02 and 03.
pub fn known(rt: &impl Print) -> io::Result<()> {
    few_steps(rt)?;
    priced(rt)?;
    marked(rt)?;
    longer(rt)
}

fn few_steps(rt: &impl Print) -> io::Result<()> {
    let a = Call::unit(b"\x10\x01", 512);
    let aa = Call::unit(b"\x10\x01\x10\x01", 768);
    let aaa = Call::unit(b"\x10\x01\x10\x01\x10\x01", 1024);
    Call::unit(b"", 256).folds_to(rt, "the empty run", b"", 0)?;
    a.folds_to(rt, "a", a.run, 1)?;
    Call { limit: 0, ..a }.folds_to(rt, "a", a.run, 1)?;
    aa.folds_to(rt, "aa", aa.run, 2)?;
    aaa.folds_to(rt, "aaa", b"\x20\x00\x03\x00\x01\x10\x01\x21", 2)?;
    Call { limit: 0, ..aaa }.folds_to(rt, "aaa", aaa.run, 3)
}

// Other prices of repeats: of folds at one cost the one with fewer repeats, and a dear count.
fn priced(rt: &impl Print) -> io::Result<()> {
    let aaaa = Call::unit(b"\x10\x01\x10\x01\x10\x01\x10\x01", 1280);
    let four = b"\x20\x00\x04\x00\x01\x10\x01\x21";
    let costs = Costs { first: 0, ..UNIT };
    Call { costs, ..aaaa }.folds_to(rt, "aaaa", four, 1)?;
    let twice = b"\x20\x00\x02\x00\x02\x10\x01\x10\x01\x21";
    let costs = Costs { each: 5, ..UNIT };
    Call { costs, ..aaaa }.folds_to(rt, "aaaa", twice, 3)
}

// With a marked, aaa stands in no repeat.
fn marked(rt: &impl Print) -> io::Result<()> {
    let mut marks = [0; 256];
    marks[1] = 1;
    let costs = Costs {
        marks: &marks,
        ..UNIT
    };
    let aaa = Call::unit(b"\x10\x01\x10\x01\x10\x01", 1024);
    Call { costs, ..aaa }.folds_to(rt, "aaa with a marked", aaa.run, 3)
}

fn longer(rt: &impl Print) -> io::Result<()> {
    let abbca = Call::unit(
        b"\x10\x01\x10\x02\x10\x02\x10\x03\x10\x01\x10\x01\x10\x02\x10\x02\x10\x03\x10\x01",
        2816,
    );
    let twice_abbca = b"\x20\x00\x02\x00\x05\x10\x01\x10\x02\x10\x02\x10\x03\x10\x01\x21";
    abbca.folds_to(rt, "abbcaabbca", twice_abbca, 6)?;
    Call { limit: 4, ..abbca }.folds_to(rt, "abbcaabbca", abbca.run, 10)?;
    let abaab = Call::unit(
        b"\x10\x01\x10\x02\x10\x01\x10\x01\x10\x02\x10\x01\x10\x02\x10\x01\x10\x01\x10\x02",
        2816,
    );
    let twice_abaab = b"\x20\x00\x02\x00\x05\x10\x01\x10\x02\x10\x01\x10\x01\x10\x02\x21";
    abaab.folds_to(rt, "abaababaab", twice_abaab, 6)?;
    let both = Call::unit(
        b"\x10\x01\x10\x02\x10\x01\x10\x01\x10\x02\x10\x01\x10\x02\x10\x01\x10\x01\x10\x02\x10\x02\x10\x01\x10\x01\x10\x02",
        3840,
    );
    let aba_and_baab =
        b"\x20\x00\x02\x00\x03\x10\x01\x10\x02\x10\x01\x21\x20\x00\x02\x00\x04\x10\x02\x10\x01\x10\x01\x10\x02\x21";
    both.folds_to(rt, "abaababaabbaab", aba_and_baab, 9)
}

// 32 different steps, again and again as far as there is room.
fn put_steps(run: &mut [u8]) {
    for (label, step) in (0..64u8).zip(run.as_chunks_mut::<2>().0) {
        *step = [Format::STEP, label % 32];
    }
}

// 32 different steps twice, at the largest limit and at the next smaller.
pub fn widest(rt: &impl Print) -> io::Result<()> {
    let mut run = [0; 128];
    put_steps(&mut run);
    let mut fold = [Format::REPEAT_END; 70];
    let open = [Format::REPEAT, 0, 2, 0, 32];
    for (byte, known) in fold.iter_mut().zip(open.iter().chain(run.iter().take(64))) {
        *byte = *known;
    }
    let twice = Call::unit(&run, 16640);
    let name = "32 steps twice";
    twice.folds_in(rt, name, &fold, 33, &mut [0; 16650], &mut [0; 130])?;
    Call { limit: 31, ..twice }.folds_in(rt, name, &run, 64, &mut [0; 16650], &mut [0; 130])
}

pub fn thousand(rt: &impl Print) -> io::Result<()> {
    let run = [Format::STEP; 2050];
    let mut work = [0u32; 262660];
    thousand_in(rt, &run, &mut work)
}

// 1,025 steps, one more than the first folder takes; their label is the byte of a step.
fn thousand_in(rt: &impl Print, run: &[u8], work: &mut [u32]) -> io::Result<()> {
    let fold = b"\x20\x04\x01\x00\x01\x10\x10\x21";
    Call::unit(run, 262656).folds_in(rt, "1025 steps", fold, 2, work, &mut [0; 16])
}
