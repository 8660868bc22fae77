// The price of each count, once, ahead of all folding; and all that the sequences are priced by.
ghost use Rattle.std.specs.Prelude.{◌≡◌, get_or};
ghost use Rattle.folder.specs.inner.Prices.{PriceList, LowPrices};

use filling::Tables;
use table::Lists;

// Entry h is first + each × (h − 2) from h = 2 on, written in place: a list that is answered would stand on the stack twice.
pub fn prepare(first: u16, each: u16, prices: &mut [u64; Lists::LENGTH])
    requires { (get_or prices.old 0 0 ≡ 0) × (get_or prices.old 1 0 ≡ 0) }
    ensures { PriceList first each prices.new }
{
    for h in 2..Lists::LENGTH {
        prices[h] = u64::from(first) + u64::from(each) * ((h - 2) as u64);
    }
}

// The tables that the sequences are priced by: the lent ones have low prices, since they are of 16 bits.
pub fn tables_of<'a>(
    steps: &'a [u16],
    groups: &'a [u16],
    marks: &'a [u8],
    repeats: &'a [u64],
) -> Tables<'a>
    ensures lent { (result.steps.now ≡ steps.now) × (result.groups.now ≡ groups.now) × (result.marks.now ≡ marks.now) }
    ensures priced { result.repeats.now ≡ repeats.now }
    ensures low { LowPrices steps.now × LowPrices groups.now }
{
    Tables {
        steps,
        groups,
        marks,
        repeats,
    }
}
