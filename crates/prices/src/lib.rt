// The price of each count, once, ahead of all folding: what folds behind it is handed this list and looks a price up by its
// count.
#![tactic(auto)]

ghost use Rattle.std.specs.Prelude.{◌≡◌, length};
ghost use Rattle.prices.specs.Prices.{price_list};

use format::Format;

// The list has an entry for each count from 0 up to the most nodes that a run can have.
#[derive(Clone, Copy)]
pub struct PriceList {}

impl PriceList {
    pub const LENGTH: usize = Format::NODES + 1;
}

// Stays: beside the list that the folder makes, whose promises do not cite this definition yet.
// Puts the list of repeat prices into a lent one, whatever that held: entries 0 and 1 are 0, and from 2 on entry h is
// first + each × (h − 2).
pub fn prepare(first: u16, each: u16, prices: &mut [u64])
    requires { length prices.old ≡ 1025 }
    ensures { prices.new ≡ price_list first each }
{
    let two = u64::from(first);
    let more = u64::from(each);
    prices[0] = 0;
    prices[1] = 0;
    for h in 2..PriceList::LENGTH {
        prices[h] = two + more * ((h - 2) as u64);
    }
}
