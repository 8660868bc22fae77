// What is given to the solving of a block.
use crate::rates::Rates;
use blocks::Block;

// What the block of step i is solved by: the prices, how many steps match at each width within the limit, the steps of the run,
// and what the step costs by itself.
#[derive(Clone, Copy)]
pub struct Row<'a> {
    pub rates: Rates,
    pub matches: &'a [u16; Block::TAIL],
    pub limit: usize,
    pub n: usize,
    pub i: usize,
    pub own: u64,
}
