// The triangular table: entries of intervals of node numbers, in lent slices.
// Stays: costs and choices are two slices and not one of pairs, since `runfold_fold` is lent two slices of 32-bit numbers.
ghost use Rattle.std.specs.Prelude.{◌≡◌, ◌++◌, ℕ, ◌+◌, ◌/◌, ◌<◌, ◌≤◌, length, get_or, set, drop, replicate};
ghost use Rattle.table.specs.Keys.{cost_digit, choice_digits, entry_base, stored_key};
ghost use Rattle.format.specs.Limits.{cells};
ghost use Rattle.table.specs.Table.{cell, entry_from, Held, Falling, Stored};

use crate::keys::{choice_digits, cost_digit};

// The entries for n nodes.
pub fn entries(n: usize) -> usize
    requires { n ≤ 1024 }
    ensures { result ≡ cells n }
{
    n * (n + 1) / 2
}

// The entry of the interval from p up to q.
pub fn entry(p: usize, q: usize) -> usize
    requires { (p < q) × (q ≤ 1024) }
    ensures { result ≡ cell p q }
{
    q * (q - 1) / 2 + p
}

// The cost or choice of the stretch from the sibling of number q up to sibling j.
pub fn read_entry(w: &[u32], numbers: &[usize], q: usize, j: usize) -> u64
    requires { Held numbers.now q j (length w.now) }
    ensures { (result ≡ entry_from w.now numbers.now q j) × (result < entry_base) }
{
    u64::from(w[entry(numbers[j], q)])
}

// Enters a row, costs and choices by the keys: the stretches of 1 to n siblings from sibling i on.
pub fn store_row(
    costs: &mut [u32],
    choices: &mut [u32],
    numbers: &[usize],
    i: usize,
    n: usize,
    keys: &[u64],
)
    requires falling { Falling numbers.now (i + n) (length costs.old) × Falling numbers.now (i + n) (length choices.old) }
    requires n_in_bounds { n < length keys.now }
    requires by_index { (d : ℕ) → 0 < d → d ≤ n → get_or keys.now d 0 < stored_key }
    ensures costs { Stored numbers.now i n (λ d. cost_digit (get_or keys.now d 0)) costs.old costs.new }
    ensures choices { Stored numbers.now i n (λ d. choice_digits (get_or keys.now d 0)) choices.old choices.new }
{
    let q = numbers[i];
    for d in 1..n + 1 {
        let at = entry(numbers[i + d], q);
        let key = keys[d];
        costs[at] = cost_digit(key) as u32;
        choices[at] = choice_digits(key) as u32;
    }
}

// Enters the stretch of siblings from i up to j by its key.
pub fn store_entry(
    costs: &mut [u32],
    choices: &mut [u32],
    numbers: &[usize],
    i: usize,
    j: usize,
    key: u64,
)
    requires falling { Falling numbers.now j (length costs.old) × Falling numbers.now j (length choices.old) }
    requires i_lt_j { (i < j) × (key < stored_key) }
    ensures costs { costs.new ≡ set costs.old (cell (get_or numbers.now j 0) (get_or numbers.now i 0)) (cost_digit key) }
    ensures choices { choices.new ≡ set choices.old (cell (get_or numbers.now j 0) (get_or numbers.now i 0)) (choice_digits key) }
{
    let at = entry(numbers[j], numbers[i]);
    costs[at] = cost_digit(key) as u32;
    choices[at] = choice_digits(key) as u32;
}

// Clears the first n entries.
pub fn clear(w: &mut [u32], n: usize)
    requires { n ≤ length w.old }
    ensures { w.new ≡ replicate n 0 ++ drop n w.old }
{
    w[..n].fill(0);
}
