// Which stretches need not be followed by anything: a repeat that is first in a longer stretch is first already in the one that ends with
// the item behind it. Where every such stretch is among the keys taken over, these tell.
ghost use Rattle.std.specs.Prelude.{◌≡◌, false, ◌+◌, ◌<◌, ◌≤◌, get_or};
ghost use Rattle.solver.specs.Rows.{KeysReady, Marked, RowFits};

use crate::row::Row;
use table::{Lists, covered};

// The keys beyond those taken over that make marking worth its time.
const MANY_KEYS: usize = 8;

// Marks the covers that stand first in the keys taken over and leave something.
pub fn mark(row: Row, keys: &[u64], seen: &mut [usize; Lists::LENGTH])
    requires { RowFits row × KeysReady keys.now }
    ensures { Marked row keys.now seen.new }
{
    if row.extent <= row.span + MANY_KEYS {
        return;
    }
    for d in 1..row.span + 1 {
        let c = covered(keys[d]);
        if c < d {
            seen[c] = row.at;
        }
    }
}

// Whether the stretch of d siblings may be first in one beyond the keys taken over.
pub fn may_be_first(
    row: Row,
    d: usize,
    stops: &[usize; Lists::LENGTH],
    seen: &[usize; Lists::LENGTH],
) -> bool
    requires { RowFits row × (d ≤ row.extent) }
    ensures { result ≡ false → (row.span + 8 < row.extent) × (d < row.span) × (get_or stops.now (row.at + d) 0 ≤ row.at + row.span) × (get_or seen.now d 0 ≡ row.at → ⊥) }
{
    row.extent <= row.span + MANY_KEYS
        || row.span <= d
        || row.at + row.span < stops[row.at + d]
        || seen[d] == row.at
}
