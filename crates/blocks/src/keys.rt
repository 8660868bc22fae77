// Keys: cost and repeats of a fold, combined, and the pair of its first item; how they are compared, read and put.
ghost use Rattle.std.specs.Prelude.{◌≡◌, ◌+◌, ◌<◌, length};
ghost use Rattle.blocks.specs.Keys.{packed, pair_base, Lesser, slot, key_in, entry_base, both_base, read_base, Put};

// Cost and repeats, combined, and the pair of count and width, 0 for the plain step.
#[derive(Clone, Copy)]
pub struct Key {
    pub both: u64,
    pub pair: u64,
}

// How the lent slice is laid out, and the bases of a key's digits.
// Stays: one lent slice, and slots by numbers in it, since C lends the work so (`runfold_fold_season`, clause `cleared`).
#[derive(Clone, Copy)]
pub struct Block {}

impl Block {
    // The entries of a block.
    pub const ENTRIES: usize = 256;
    // The slot of the tail; those of the stretches stand before it and those of the counts behind it.
    pub const TAIL: usize = 33;
    // What cost and repeats are combined by.
    pub const REPEATS: u64 = 65536;
    // What count and width are packed by.
    pub const WIDTHS: u64 = 64;
}

// Where slot s of the block of step i begins.
pub fn slot(i: usize, s: usize) -> usize
    requires { (i < 65536) × (s < 256) }
    ensures { result ≡ slot i s }
{
    Block::ENTRIES * i + 3 * s
}

// The pair of a count and a width.
pub fn pair_of(count: usize, width: usize) -> u64
    requires { (count < 65536) × (width < 64) }
    ensures { (result ≡ packed count width) × (result < pair_base) }
{
    (count as u64) * Block::WIDTHS + (width as u64)
}

// The earlier of two keys.
// Stays: by hand, since with `min` by a derived order the season folder takes 1.5 times as long on one label.
pub fn lesser(a: Key, b: Key) -> Key
    requires { (a.pair < pair_base) × (b.pair < pair_base) }
    ensures { Lesser a b result }
{
    if b.both < a.both {
        return b;
    }
    if b.both == a.both {
        if b.pair < a.pair {
            return b;
        }
    }
    a
}

// The key that begins at an entry.
pub fn key_at(work: &[u32], at: usize) -> Key
    requires { at + 2 < length work.now }
    ensures { (result ≡ key_in work.now at) × (result.both < read_base) × (result.pair < entry_base) }
{
    Key {
        both: u64::from(work[at]) * Block::REPEATS + u64::from(work[at + 1]),
        pair: u64::from(work[at + 2]),
    }
}

// Puts a key at an entry.
pub fn put_key(work: &mut [u32], at: usize, k: Key)
    requires { (at + 2 < length work.old) × (k.both < both_base) × (k.pair < entry_base) }
    ensures { Put work.old work.new at k }
{
    work[at] = (k.both / Block::REPEATS) as u32;
    work[at + 1] = (k.both % Block::REPEATS) as u32;
    work[at + 2] = k.pair as u32;
}
