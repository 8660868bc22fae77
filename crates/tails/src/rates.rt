// The prices that a season is solved at: they count repeats, so that cost and repeats are one number.
ghost use Rattle.std.specs.Prelude.{◌≡◌, ◌+◌, ◌<◌, ◌≤◌};
ghost use Rattle.blocks.specs.Keys.{read_base};
ghost use Rattle.tails.specs.Tops.{top_rate, top_price};

use blocks::Block;

// The price of two copies, and that of each copy more.
#[derive(Clone, Copy)]
pub struct Rates {
    pub first: u64,
    pub each: u64,
    ghost first_low: { first ≤ top_rate + 1 },
    ghost each_low: { each ≤ top_rate },
}

impl Rates {
    ghost use Rattle.tails.specs.Solving.{RatesOf};

    // The rates of two prices: a repeat is one repeat more.
    pub fn new(first: u16, each: u16) -> Rates
        ensures { RatesOf first each result }
    {
        Rates {
            first: u64::from(first) * Block::REPEATS + 1,
            each: u64::from(each) * Block::REPEATS,
        }
    }
}

// What a repeat costs by the price of its count, with its body once and what is behind it.
pub fn repeat_cost(price: u64, body: u64, rest: u64) -> u64
    requires { (price ≤ top_price) × (body < read_base) × (rest < read_base) }
    ensures { result ≡ price + body + rest }
{
    price + body + rest
}
