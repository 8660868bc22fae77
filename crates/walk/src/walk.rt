// The walk over a sequence: a sequence is made of items, and a group or a repeat holds a sequence. The functions here call
// each other, remaining bytes falling; every test stands in command.rt.
ghost use Rattle.std.specs.Prelude.{◌≡◌, ◌≤◌, ◌<◌, length, get_or};
ghost use Rattle.walk.specs.Walk.{At, OpensAt, NoClose, Room, Sane, ItemRead, SequenceRead, rules_of, seen};

use crate::command::{
    Depth, Passed, Terms, enter_group, enter_repeat, leave_group, leave_repeat, step,
};
use crate::operands::operands_at;
use format::{Format, Reason, Refusal, Tally, closes, opens_repeat};

// The items from `at` on, up to the end of the input or to a close.
#[cycle(walk)]
pub fn sequence(s: &[u8], a: &Terms, at: usize, d: Depth, t: Tally) -> Result<Passed, Refusal>
    requires at_in_bounds { at ≤ length s.now }
    requires room { Room a.now.limits d t }
    requires sane { Sane a.now }
    ensures { SequenceRead (rules_of a.now) s.now d at t (seen result) }
{
    let mut now = Passed { at, tally: t };
    // Stays: an item says where the next one starts, so no range counts the turns.
    while now.at < s.len() {
        if closes(s[now.at]) {
            return Ok(now);
        }
        now = if s[now.at] == Format::STEP {
            step(s, a, now.at, d, now.tally)?
        } else {
            item(s, a, now.at, d, now.tally)?
        };
    }
    Ok(now)
}

// The item at `at`, which is no close and no step.
#[cycle(walk)]
fn item(s: &[u8], a: &Terms, at: usize, d: Depth, t: Tally) -> Result<Passed, Refusal>
    requires no_close { NoClose s.now at }
    requires no_step { get_or s.now at 0 ≡ 0x10 → ⊥ }
    requires room { Room a.now.limits d t }
    requires sane { Sane a.now }
    ensures { ItemRead (rules_of a.now) s.now d at t (seen result) }
{
    let c = s[at];
    if c == Format::GROUP {
        return group(s, a, at, d, t);
    }
    if opens_repeat(a.short, c) {
        return repeat(s, a, at, d, t);
    }
    Err(Reason::UnknownCommand.at(at))
}

// The group at `at`.
#[cycle(walk)]
fn group(s: &[u8], a: &Terms, at: usize, d: Depth, t: Tally) -> Result<Passed, Refusal>
    requires at { At s.now at 0x11 }
    requires room { Room a.now.limits d t }
    requires sane { Sane a.now }
    ensures { ItemRead (rules_of a.now) s.now d at t (seen result) }
{
    let entered = enter_group(s, a, at, d, t)?;
    let deeper = Depth {
        groups: d.groups + 1,
        repeats: d.repeats,
    };
    let held = sequence(s, a, entered.at, deeper, entered.tally)?;
    leave_group(s, a, held.at, t, held.tally)
}

// The repeat at `at`.
#[cycle(walk)]
fn repeat(s: &[u8], a: &Terms, at: usize, d: Depth, t: Tally) -> Result<Passed, Refusal>
    requires opens_at { OpensAt s.now at a.now.short }
    requires room { Room a.now.limits d t }
    requires sane { Sane a.now }
    ensures { ItemRead (rules_of a.now) s.now d at t (seen result) }
{
    let entered = enter_repeat(s, a, at, d, t)?;
    let deeper = Depth {
        groups: d.groups,
        repeats: d.repeats + 1,
    };
    let body = sequence(s, a, entered.at, deeper, entered.tally)?;
    leave_repeat(s, a, body.at, operands_at(s, at), t, body.tally)
}
