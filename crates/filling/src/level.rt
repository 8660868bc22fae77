// Filling the table: the stretches of one sequence, after the sequences inside its groups.
ghost use Rattle.std.specs.Prelude.{◌<◌, ◌≤◌, get_or};
ghost use Rattle.format.specs.Limits.{allowed};
ghost use Rattle.format.specs.Tree.{tree_of};
ghost use Rattle.filling.specs.Filling.{Below, counted_of, LevelReady, LevelListed, LevelInside, LevelFilled, LevelKept};

use crate::own::own_combined;
use crate::scratch::Scratch;
use crate::tables::Tables;
use format::Format;
use solver::{Row, draw, enter_row, grow};
use table::{Nodes, Span};

// Where a sequence stands in its run, and how wide a repeat may be.
#[derive(Clone, Copy)]
pub struct Level {
    pub span: Span,
    pub limit: usize,
}

// Enters the stretches of the sequence s that a fold can use, from the last sibling to the first. The sequences inside its groups are
// entered already.
fn enter_level(
    nodes: &Nodes,
    s: &[u8],
    level: Level,
    tables: &Tables,
    scratch: &mut Scratch,
    costs: &mut [u32],
    choices: &mut [u32],
)
    requires level_ready { LevelReady s.now level.span.behind level.limit tables.now.steps.now tables.now.groups.now tables.now.repeats.now costs.old choices.old }
    requires below { Below (allowed level.limit tables.now.marks.now) (counted_of tables.now.steps.now tables.now.groups.now tables.now.repeats.now) level.span.behind (tree_of s.now) costs.old choices.old }
    requires level_listed { LevelListed nodes.now.places nodes.now.nexts s.now level }
    ensures entered { LevelFilled s.now level tables.now.steps.now tables.now.groups.now tables.now.marks.now tables.now.repeats.now costs.new choices.new }
    ensures kept { LevelKept s.now level costs.old costs.new × LevelKept s.now level choices.old choices.new }
{
    let m = nodes.list_siblings(s, level.span, &mut scratch.siblings);
    scratch.siblings.classify(s, tables.marks, m);
    scratch.rows.extents[m] = 0;
    scratch.rows.tails[m] = 0;
    for i in (0..m).rev() {
        grow(&scratch.siblings.kinds, i, m, &mut scratch.rows.matches);
        let rows = &scratch.rows;
        let g = draw(&rows.matches, &rows.extents, i, m);
        let own = own_combined(s, tables, costs, choices, &scratch.siblings, i);
        scratch.rows.extents[i] = g.extent;
        let row = Row {
            at: i,
            end: m,
            limit: level.limit,
            own,
            shift: g.shift,
            span: g.span,
            extent: g.extent,
        };
        enter_row(
            costs,
            choices,
            &scratch.siblings.numbers,
            row,
            tables.repeats,
            &mut scratch.rows,
        );
    }
}

// Where what the group of number q holds stands: it is never empty, so it starts at the node of the next lower number.
fn inside(nodes: &Nodes, q: usize, limit: usize) -> Level
    requires { (0 < q) × (q ≤ 1024) }
    ensures { LevelInside nodes.now.places q (get_or nodes.now.nexts q 0) limit result }
{
    let span = Span {
        start: nodes.places[q - 1],
        first: q - 1,
        behind: nodes.nexts[q],
    };
    Level { span, limit }
}

// Enters the whole tree that s spells: the parts of its groups first, by a call for each, and then its own stretches.
pub fn enter_tree(
    nodes: &Nodes,
    s: &[u8],
    level: Level,
    tables: &Tables,
    scratch: &mut Scratch,
    costs: &mut [u32],
    choices: &mut [u32],
)
    requires level_ready { LevelReady s.now level.span.behind level.limit tables.now.steps.now tables.now.groups.now tables.now.repeats.now costs.old choices.old }
    requires level_listed { LevelListed nodes.now.places nodes.now.nexts s.now level }
    ensures entered { LevelFilled s.now level tables.now.steps.now tables.now.groups.now tables.now.marks.now tables.now.repeats.now costs.new choices.new }
    ensures kept { LevelKept s.now level costs.old costs.new × LevelKept s.now level choices.old choices.new }
{
    let mut q = level.span.first;
    // Stays: a turn follows the link to the next sibling, so no range counts the turns.
    while level.span.behind < q {
        let part = nodes.part_of(s, level.span, q);
        if part[0] == Format::GROUP {
            enter_tree(
                nodes,
                &part[2..part.len() - 1],
                inside(nodes, q, level.limit),
                tables,
                scratch,
                costs,
                choices,
            );
        }
        q = nodes.nexts[q];
    }
    enter_level(nodes, s, level, tables, scratch, costs, choices);
}
