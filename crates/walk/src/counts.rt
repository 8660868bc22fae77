// The counts of a reading: what each command that is passed makes of them.
ghost use Rattle.std.specs.Prelude.{◌≡◌, ◌<◌, ◌≤◌};
ghost use Rattle.format.specs.Machine.{repeated, with_step, group_entered, repeat_entered, after_group, after_repeat};
ghost use Rattle.walk.specs.Walk.{Small};

use format::Tally;

// The counts after a step of that price.
pub fn after_step(t: Tally, price: u64) -> Tally
    requires small { Small t }
    requires priced { price < 65536 }
    ensures { result ≡ with_step t price }
{
    Tally {
        siblings: t.siblings + 1,
        nodes: t.nodes + 1,
        size: t.size + 2,
        cost: t.cost + price,
        steps: t.steps + 1,
        depth: t.depth,
    }
}

// The counts inside a group of that price; so many groups were open before it.
pub fn inside_group(groups: usize, outer: Tally, price: u64) -> Tally
    requires small { Small outer }
    requires bounded { (groups < 65536) × (price < 65536) }
    ensures { result ≡ group_entered groups outer price }
{
    Tally {
        siblings: 0,
        nodes: outer.nodes + 1,
        size: outer.size + 2,
        cost: outer.cost + price,
        steps: outer.steps,
        depth: outer.depth.max(groups + 1),
    }
}

// The counts after a group, by those before it and those inside it.
pub fn after_group(outer: Tally, inner: Tally) -> Tally
    requires { (outer.siblings < 65536) × (inner.size < 196608) }
    ensures { result ≡ after_group outer inner }
{
    Tally {
        siblings: outer.siblings + 1,
        nodes: inner.nodes,
        size: inner.size + 1,
        cost: inner.cost,
        steps: inner.steps,
        depth: inner.depth,
    }
}

// The counts inside a repeat of that price.
pub fn inside_repeat(before: Tally, price: u64) -> Tally
    requires small { Small before }
    requires priced { price < 4294967296 }
    ensures { result ≡ repeat_entered before price }
{
    Tally {
        siblings: 0,
        nodes: before.nodes,
        size: before.size,
        cost: before.cost + price,
        steps: before.steps,
        depth: before.depth,
    }
}

// A total after all passes of a repeat, by that before it and that after one pass.
fn repeated(count: usize, before: usize, pass: usize) -> usize
    requires counted { (1 ≤ count) × (count < 65536) }
    requires grown { (before ≤ pass) × (pass < 196608) }
    ensures { result ≡ repeated count before pass }
{
    pass + (count - 1) * (pass - before)
}

// The counts after a repeat, by those before it and those after one pass: all passes count, but not for cost and depth.
pub fn after_repeat(count: usize, before: Tally, pass: Tally) -> Tally
    requires counted { (1 ≤ count) × (count < 65536) }
    requires small { Small before }
    requires small_pass { Small pass }
    requires grown { (before.nodes ≤ pass.nodes) × (before.size ≤ pass.size) × (before.steps ≤ pass.steps) }
    ensures { result ≡ after_repeat count before pass }
{
    Tally {
        siblings: before.siblings + count * pass.siblings,
        nodes: repeated(count, before.nodes, pass.nodes),
        size: repeated(count, before.size, pass.size),
        cost: pass.cost,
        steps: repeated(count, before.steps, pass.steps),
        depth: pass.depth,
    }
}
