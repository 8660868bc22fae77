// Keys: cost, repeats, count and width as the digits of one number, the names and bases of the digits, and the keys that the table has.
ghost use Rattle.std.specs.Prelude.{◌≡◌, ◌+◌, ◌*◌, ◌<◌, ◌≤◌, length};
ghost use Rattle.optimum.specs.Fewest.{combined};
ghost use Rattle.table.specs.Keys.{factor, packed, key, rejoined, combined_digits, pair_digits, cost_digit, choice_digits, count_digit, width_digit, covered, rest_digits, entry_base, combined_base, top_price};
ghost use Rattle.table.specs.Table.{Held, key_from, rest_from};

use crate::triangle::read_entry;

// The bases of the digits, from the last one on. A pair is count and width together, a choice has the repeats before them.
#[derive(Clone, Copy)]
pub struct Key {}

impl Key {
    pub const WIDTHS: u64 = 1024;

    pub const COUNTS: u64 = 2048;

    pub const PAIRS: u64 = Key::COUNTS * Key::WIDTHS;

    pub const REPEATS: u64 = 1024;

    pub const CHOICES: u64 = Key::REPEATS * Key::PAIRS;
}

// The pair of a repeat, by count and width.
pub fn pair_of(count: usize, width: usize) -> u64
    requires { (count ≤ 1024) × (width ≤ 1024) }
    ensures { (result ≡ packed count width) × (result < entry_base) }
{
    (count as u64) * Key::WIDTHS + (width as u64)
}

// A cost and a number of repeats, combined.
pub fn combined_of(cost: u64, repeats: u64) -> u64
    requires { (cost ≤ top_price) × (repeats ≤ factor) }
    ensures { result ≡ combined factor cost repeats }
{
    cost * Key::REPEATS + repeats
}

// The key of cost and repeats, combined, and a pair.
pub fn key_of(both: u64, pair: u64) -> u64
    requires { (both ≤ 2 * combined_base + combined factor top_price 1) × (pair < entry_base) }
    ensures { result ≡ key both pair }
{
    both * Key::PAIRS + pair
}

// Cost and repeats of a key, combined.
pub fn combined_digits(key: u64) -> u64
    ensures { result ≡ combined_digits key }
{
    key / Key::PAIRS
}

// Count and width of a key, or of a choice, as a pair.
pub fn pair_digits(key: u64) -> u64
    ensures { (result ≡ pair_digits key) × (result < entry_base) }
{
    key % Key::PAIRS
}

pub fn cost_digit(key: u64) -> u64
    ensures { result ≡ cost_digit key }
{
    key / Key::CHOICES
}

pub fn choice_digits(key: u64) -> u64
    ensures { (result ≡ choice_digits key) × (result < entry_base) }
{
    key % Key::CHOICES
}

pub fn count_digit(key: u64) -> usize
    ensures { (result ≡ count_digit key) × (result < 2048) }
{
    (key / Key::WIDTHS % Key::COUNTS) as usize
}

pub fn width_digit(key: u64) -> usize
    ensures { (result ≡ width_digit key) × (result < 1024) }
{
    (key % Key::WIDTHS) as usize
}

// The siblings that the repeat in a key covers, 0 for the plain node.
pub fn covered(key: u64) -> usize
    ensures { result ≡ covered key }
{
    count_digit(key) * width_digit(key)
}

// The key of a cost and a choice, as the table keeps them.
fn rejoin(cost: u64, choice: u64) -> u64
    requires { (cost < entry_base) × (choice < entry_base) }
    ensures { result ≡ rejoined cost choice }
{
    cost * Key::CHOICES + choice
}

// The key of the stretch from the sibling of number q up to sibling j, as the table has it.
pub fn key_at(costs: &[u32], choices: &[u32], numbers: &[usize], q: usize, j: usize) -> u64
    requires held { Held numbers.now q j (length costs.now) }
    requires held_2 { Held numbers.now q j (length choices.now) }
    ensures { result ≡ key_from costs.now choices.now numbers.now q j }
{
    rejoin(
        read_entry(costs, numbers, q, j),
        read_entry(choices, numbers, q, j),
    )
}

// What a stretch of this key adds to the key of an item that it follows: its cost and its repeats.
pub fn rest_of(key: u64) -> u64
    ensures { (result ≡ rest_digits key) × (result ≤ key) }
{
    key - key % Key::PAIRS
}

// What that stretch of the table adds to the key of an item that it follows.
pub fn rest_key(costs: &[u32], choices: &[u32], numbers: &[usize], q: usize, j: usize) -> u64
    requires held { Held numbers.now q j (length costs.now) }
    requires held_2 { Held numbers.now q j (length choices.now) }
    ensures { result ≡ rest_from costs.now choices.now numbers.now q j }
{
    rest_of(key_at(costs, choices, numbers, q, j))
}
