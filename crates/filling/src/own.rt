// One sibling by itself: its cost and its repeats, combined.
ghost use Rattle.std.specs.Prelude.{◌<◌, ◌≤◌, length, get_or};
ghost use Rattle.format.specs.Forest.{siblings};
ghost use Rattle.format.specs.Tree.{tree_of};
ghost use Rattle.table.specs.Table.{Falling};
ghost use Rattle.table.specs.Listing.{Spelled, Placed, Numbered};
ghost use Rattle.filling.specs.Filling.{Single};

use crate::tables::Tables;
use format::Format;
use table::{Siblings, combined_digits, combined_of, key_at};
use walk::price;

// Cost and repeats, combined, of sibling i by itself: of a step, by the table of steps; of a group, by the table of groups, and the
// preferred fold of what it holds.
pub fn own_combined(
    s: &[u8],
    tables: &Tables,
    costs: &[u32],
    choices: &[u32],
    row: &Siblings,
    i: usize,
) -> u64
    requires spelled { Spelled s.now }
    requires placed { Placed s.now row.now.offsets }
    requires there { (i < siblings (tree_of s.now)) × (siblings (tree_of s.now) ≤ 1024) }
    requires falling { Falling row.now.numbers (siblings (tree_of s.now)) (length costs.now) × Falling row.now.numbers (siblings (tree_of s.now)) (length choices.now) }
    requires numbered { Numbered (get_or row.now.numbers (siblings (tree_of s.now)) 0) (tree_of s.now) row.now.numbers }
    ensures { Single s.now tables.now.steps.now tables.now.groups.now costs.now choices.now row.now.numbers i result }
{
    let at = row.offsets[i];
    let label = s[at + 1];
    if s[at] == Format::STEP {
        return combined_of(price(tables.steps, label), 0);
    }
    let inside = key_at(costs, choices, &row.numbers, row.numbers[i] - 1, i + 1);
    combined_of(price(tables.groups, label), 0) + combined_digits(inside)
}
