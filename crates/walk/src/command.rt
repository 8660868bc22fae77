// One command at a time: each function makes the tests of docs/REFUSALS.md for one command, in their order, and counts by the
// functions of counts.rt.
// The walk over sequences and items (walk.rt) makes no test of its own.
ghost use Rattle.std.specs.Prelude.{◌≡◌, true, ◌+◌, ◌*◌, ◌<◌, ◌≤◌, length, get_or, IfOk};
ghost use Rattle.format.specs.Machine.{a_group, a_repeat, operands};
ghost use Rattle.walk.specs.Walk.{At, OpensAt, Room, RoomSomewhere, Halted, Sane, ItemRead, OpenRead, CloseRead, in_group_of, in_repeat_of, rules_of, seen, count_at, repeat_at, barred};

use crate::counts::{after_group, after_repeat, after_step, inside_group, inside_repeat};
use crate::operands::{Operands, has_shorter, operands_at};
use format::{Costs, Format, Limits, Reason, Refusal, Tally, is_marked, operand_bytes};

// What a reader was asked: the limits, whether repeats may stand in the input, whether it is of the short family, the width limit,
// and the costs.
#[derive(Clone, Copy)]
pub struct Terms<'a> {
    pub limits: Limits,
    pub folds: bool,
    pub short: bool,
    pub widest: usize,
    pub costs: Costs<'a>,
}

// The groups and the repeats that are open.
#[derive(Clone, Copy)]
pub struct Depth {
    pub groups: usize,
    pub repeats: usize,
}

// Where a walk has come to, and what it has counted.
#[derive(Clone, Copy)]
pub struct Passed {
    pub at: usize,
    pub tally: Tally,
}

// The price of a label; 0 where the table does not have it.
pub fn price(table: &[u16], label: u8) -> u64
    ensures { (result ≡ get_or table.now label 0) × (result < 65536) }
{
    match table.get(usize::from(label)) {
        Some(price) => u64::from(*price),
        None => 0,
    }
}

// Whether a label may not stand at a depth: it is marked, and a repeat is open.
fn is_barred(marks: &[u8], label: u8, d: Depth) -> bool
    ensures { result ≡ barred marks.now label d }
{
    0 < d.repeats && is_marked(marks, label)
}

// A step: refusals 3, 19 and 10.
#[tactic(auto, using(crate::proofs::Commands::step_short, crate::proofs::Commands::step_barred, crate::proofs::Commands::step_full, crate::proofs::Commands::step_on))]
pub fn step(s: &[u8], a: &Terms, at: usize, d: Depth, t: Tally) -> Result<Passed, Refusal>
    requires at { At s.now at 0x10 }
    requires room_somewhere { RoomSomewhere a.now.limits t }
    requires sane { Sane a.now }
    ensures { ItemRead (rules_of a.now) s.now d at t (seen result) }
{
    if s.len() - at < 2 {
        return Err(Reason::Unfinished.at(s.len()));
    }
    let label = s[at + 1];
    if is_barred(a.costs.marks, label, d) {
        return Err(Reason::MarkedInRepeat.at(at));
    }
    if a.limits.nodes <= t.nodes {
        return Err(Reason::TooManyNodes.at(at));
    }
    Ok(Passed {
        at: at + 2,
        tally: after_step(t, price(a.costs.steps, label)),
    })
}

// The open of a group: refusals 21, 3, 8, 19 and 10.
#[tactic(auto, using(crate::proofs::Commands::group_banned, crate::proofs::Commands::group_short, crate::proofs::Commands::group_deep, crate::proofs::Commands::group_barred, crate::proofs::Commands::group_full, crate::proofs::Commands::group_on))]
pub fn enter_group(s: &[u8], a: &Terms, at: usize, d: Depth, t: Tally) -> Result<Passed, Refusal>
    requires at { At s.now at 0x11 }
    requires room { Room a.now.limits d t }
    requires sane { Sane a.now }
    ensures { OpenRead (rules_of a.now) s.now d (in_group_of d) at t (a_group t) 2 1 65535 (seen result) }
{
    let most = a.limits.groups;
    if most == 0 {
        return Err(Reason::GroupInSeason.at(at));
    }
    if s.len() - at < 2 {
        return Err(Reason::Unfinished.at(s.len()));
    }
    if most <= d.groups {
        return Err(Reason::TooDeep.at(at));
    }
    let label = s[at + 1];
    if is_barred(a.costs.marks, label, d) {
        return Err(Reason::MarkedInRepeat.at(at));
    }
    if a.limits.nodes <= t.nodes {
        return Err(Reason::TooManyNodes.at(at));
    }
    Ok(Passed {
        at: at + 2,
        tally: inside_group(d.groups, t, price(a.costs.groups, label)),
    })
}

// The close of a group whose outer counts are t and inner counts i: refusals 3 at the end, 2, 4 and 5.
#[tactic(auto, using(crate::proofs::Commands::left_open, crate::proofs::Commands::group_empty, crate::proofs::Commands::group_left, crate::proofs::Commands::group_crossed, crate::proofs::Commands::group_crossed_run))]
pub fn leave_group(s: &[u8], a: &Terms, at: usize, t: Tally, i: Tally) -> Result<Passed, Refusal>
    requires halted { Halted s.now at }
    requires room_somewhere { RoomSomewhere a.now.limits t }
    requires sane { Sane a.now }
    requires nodes { (t.nodes + 1 ≤ i.nodes) × (i.nodes ≤ a.now.limits.nodes) }
    requires size { (t.size ≤ i.size) × (i.size + 3 * t.nodes + 1 ≤ t.size + 3 * i.nodes) }
    requires cost { i.cost + 4294967296 * t.nodes ≤ t.cost + 4294967296 * i.nodes }
    requires steps { (t.steps ≤ i.steps) × (i.steps + t.nodes ≤ t.steps + i.nodes) }
    ensures { (d : Depth) → CloseRead (rules_of a.now) s.now d at t i (a_group t) (seen result) }
{
    if at == s.len() {
        return Err(Reason::Unfinished.at(at));
    }
    if s[at] == Format::GROUP_END {
        if i.siblings == 0 {
            return Err(Reason::Empty.at(at));
        }
        return Ok(Passed {
            at: at + 1,
            tally: after_group(t, i),
        });
    }
    if a.folds {
        return Err(Reason::WrongClose.at(at));
    }
    Err(Reason::RepeatInRun.at(at))
}

// The open of a repeat: refusals 2, 3, 6, 7, 20 and 8.
#[tactic(auto, using(crate::proofs::Commands::repeat_in_run, crate::proofs::Commands::repeat_short, crate::proofs::Commands::repeat_few, crate::proofs::Commands::repeat_wide, crate::proofs::Commands::repeat_long, crate::proofs::Commands::repeat_deep, crate::proofs::Commands::repeat_on, crate::proofs::Commands::bounded))]
pub fn enter_repeat(s: &[u8], a: &Terms, at: usize, d: Depth, t: Tally) -> Result<Passed, Refusal>
    requires opens_at { OpensAt s.now at a.now.short }
    requires room { Room a.now.limits d t }
    requires sane { Sane a.now }
    ensures opened { OpenRead (rules_of a.now) s.now d (in_repeat_of d) at t (repeat_at s.now at t) 0 0 4294967295 (seen result) }
    ensures in_fold { IfOk result (λ w. (a.now.folds ≡ true) × (2 ≤ count_at s.now at) × (at + operands (get_or s.now at 0) < length s.now)) }
{
    if !a.folds {
        return Err(Reason::RepeatInRun.at(at));
    }
    let c = s[at];
    let size = operand_bytes(c);
    if s.len() - at <= size {
        return Err(Reason::Unfinished.at(s.len()));
    }
    let said = operands_at(s, at);
    if said.count < 2 {
        return Err(Reason::TooFewCopies.at(at));
    }
    if a.widest < said.width {
        return Err(Reason::TooWide.at(at));
    }
    if has_shorter(a.short, c, said) {
        return Err(Reason::NotShortest.at(at));
    }
    if a.limits.repeats <= d.repeats {
        return Err(Reason::TooDeep.at(at));
    }
    let price = u64::from(a.costs.first) + u64::from(a.costs.each) * (said.count - 2) as u64;
    Ok(Passed {
        at: at + 1 + size,
        tally: inside_repeat(t, price),
    })
}

// The close of a repeat whose outer counts are t and inner counts i: refusals 3 at the end, 4, 5, 10 and 9.
#[tactic(auto, using(crate::proofs::Commands::left_open, crate::proofs::Commands::repeat_crossed, crate::proofs::Commands::repeat_empty, crate::proofs::Commands::repeat_untrue, crate::proofs::Commands::repeat_full, crate::proofs::Commands::repeat_left, crate::proofs::Commands::repeat_grown))]
pub fn leave_repeat(
    s: &[u8],
    a: &Terms,
    at: usize,
    o: Operands,
    t: Tally,
    i: Tally,
) -> Result<Passed, Refusal>
    requires halted { Halted s.now at }
    requires room_somewhere { RoomSomewhere a.now.limits t }
    requires sane { Sane a.now }
    requires in_fold { (a.now.folds ≡ true) × (2 ≤ o.count) × (o.count < 65536) }
    requires nodes { (t.nodes + i.siblings ≤ i.nodes) × (i.nodes ≤ a.now.limits.nodes) }
    requires size { (t.size ≤ i.size) × (i.size + 3 * t.nodes ≤ t.size + 3 * i.nodes) }
    requires cost { i.cost + 4294967296 * t.nodes ≤ t.cost + 4294967296 * i.nodes + 4294967296 }
    requires steps { (t.steps ≤ i.steps) × (i.steps + t.nodes ≤ t.steps + i.nodes) }
    ensures { (d : Depth) → CloseRead (rules_of a.now) s.now d at t i (a_repeat o.count o.width t) (seen result) }
{
    if at == s.len() {
        return Err(Reason::Unfinished.at(at));
    }
    if s[at] == Format::GROUP_END {
        return Err(Reason::WrongClose.at(at));
    }
    let siblings = i.siblings;
    let width = o.width;
    if siblings == 0 {
        return Err(Reason::Empty.at(at));
    }
    let passed = after_repeat(o.count, t, i);
    let total = passed.nodes;
    let most = a.limits.nodes;
    if most < total {
        return Err(Reason::TooManyNodes.at(at));
    }
    if siblings != width {
        return Err(Reason::UntrueWidth.at(at));
    }
    Ok(Passed {
        at: at + 1,
        tally: passed,
    })
}
