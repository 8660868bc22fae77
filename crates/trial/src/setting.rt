// The settings of prices and limits that are tried, by number.
use format::{Costs, Format};

// Prices: of steps and of groups by the labels 1 and 2, and of a repeat.
#[derive(Clone, Copy)]
struct Prices {
    steps: [u16; 2],
    groups: [u16; 2],
    first: u16,
    each: u16,
}

// Unit costs, first 0, each 5, labels that cost nothing, labels that cost unlike, and groups that cost unlike steps.
const PRICES: [Prices; 6] = [
    Prices {
        steps: [1, 1],
        groups: [1, 1],
        first: 1,
        each: 0,
    },
    Prices {
        steps: [1, 1],
        groups: [1, 1],
        first: 0,
        each: 0,
    },
    Prices {
        steps: [1, 1],
        groups: [1, 1],
        first: 1,
        each: 5,
    },
    Prices {
        steps: [0, 0],
        groups: [0, 0],
        first: 1,
        each: 0,
    },
    Prices {
        steps: [3, 1],
        groups: [3, 1],
        first: 2,
        each: 1,
    },
    Prices {
        steps: [1, 3],
        groups: [4, 2],
        first: 2,
        each: 1,
    },
];

// At each of the prices: 0 to 3, and the largest.
const LIMITS: [usize; 5] = [0, 1, 2, 3, Format::WIDTH];

// One setting: a limit, the tables of costs and the marks, and the prices of a repeat.
#[derive(Clone, Copy)]
pub struct Setting {
    pub limit: usize,
    steps: [u16; Format::LABELS],
    groups: [u16; Format::LABELS],
    marks: [u8; Format::LABELS],
    first: u16,
    each: u16,
}

impl Setting {
    // The setting of a number, under marks of the labels 1 and 2; none past the last.
    pub fn new(number: usize, marked: [u8; 2]) -> Option<Setting> {
        let prices = PRICES.get(number / LIMITS.len())?;
        let mut steps = [7; Format::LABELS];
        steps[1..3].copy_from_slice(&prices.steps);
        let mut groups = [7; Format::LABELS];
        groups[1..3].copy_from_slice(&prices.groups);
        let mut marks = [0; Format::LABELS];
        marks[1..3].copy_from_slice(&marked);
        Some(Setting {
            limit: LIMITS[number % LIMITS.len()],
            steps,
            groups,
            marks,
            first: prices.first,
            each: prices.each,
        })
    }

    // The costs of the setting.
    pub fn costs(&self) -> Costs<'_> {
        Costs {
            steps: &self.steps,
            groups: &self.groups,
            marks: &self.marks,
            first: self.first,
            each: self.each,
        }
    }
}
