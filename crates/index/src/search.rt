// The search in the index.
ghost use Rattle.std.specs.Prelude.{◌≤◌, ◌<◌, length, get_or};
ghost use Rattle.index.specs.inner.Passing.{LastUpTo};

// The last entry that is not above n, by halving: entry `low` is not above n, entry `high`, where there is one, is.
pub fn last_up_to(entries: &[u32], n: usize) -> usize
    requires { (0 < length entries.now) × (get_or entries.now 0 0 ≤ n) }
    ensures { LastUpTo entries.now n result }
{
    let mut low = 0;
    let mut high = entries.len();
    // Stays: partition_point asks for entries that rise, which this function does not ask of its callers.
    while 1 < high - low {
        let middle = low + (high - low) / 2;
        if entries[middle] as usize <= n {
            low = middle;
        } else {
            high = middle;
        }
    }
    low
}
