// The best of all folds of a run: by cost, then by the number of repeats and then by byte order.
use format::{Costs, Format, operand_bytes};
use reader::read_fold;
use strings::Fold;

// A fold, with what it is judged by in this order. None of two folds of a run begins the other.
#[derive(Clone, Copy, PartialEq, Eq, PartialOrd, Ord)]
pub struct Priced<'a> {
    pub cost: u64,
    pub repeats: usize,
    pub fold: &'a [u8],
}

// How many repeats stand in a fold: its commands 20, each once, whatever it stands in. The commands are walked by their sizes,
// since a label, a count or a width may have that byte too.
fn repeats_in(fold: &[u8]) -> usize {
    let mut repeats: usize = 0;
    let mut operands: usize = 0;
    for c in fold {
        if operands > 0 {
            operands -= 1;
            continue;
        }
        operands = operand_bytes(*c);
        if *c == Format::REPEAT {
            repeats = repeats.saturating_add(1);
        }
    }
    repeats
}

impl<'a> Priced<'a> {
    // A fold by its price, if it is within the limit and repeats no marked label.
    fn new(fold: &'a [u8], limit: usize, costs: &Costs) -> Option<Priced<'a>> {
        let counts = read_fold::<Format>(fold, limit, costs).ok()?;
        Some(Priced {
            cost: counts.cost,
            repeats: repeats_in(fold),
            fold,
        })
    }
}

// The best of these folds.
pub fn best_of<'a>(folds: &'a [Fold], limit: usize, costs: &Costs) -> Option<Priced<'a>> {
    folds
        .iter()
        .filter_map(|fold| Priced::new(fold.bytes(), limit, costs))
        .min()
}
