// The siblings of a listed sequence: the part of each, and its class.
ghost use Rattle.std.specs.Prelude.{◌≡◌, ◌↔◌, IsTrue, Bool, true, false, ℕ, ◌<◌, ◌≤◌};
ghost use Rattle.format.specs.Limits.{marked_in};
ghost use Rattle.format.specs.Forest.{siblings, bytes};
ghost use Rattle.format.specs.Tree.{tree_of};
ghost use Rattle.optimum.specs.Cheapest.{node};
ghost use Rattle.table.specs.Listing.{Spelled, Placed, SiblingPlaced, Classed, ClassOf, FirstEqual, marked_from};

use crate::Lists;
use format::{Format, is_marked};

// The siblings of one sequence: where each stands in its bytes, which number it has in the run, and its class. The entry behind the
// last one is where the sequence ends; it has no class.
#[derive(Drop)]
pub struct Siblings {
    pub offsets: [usize; Lists::LENGTH],
    pub numbers: [usize; Lists::LENGTH],
    pub kinds: [u16; Lists::LENGTH],
}

impl Siblings {
    // The part of sibling i: a sub-slice of the sequence's bytes.
    fn part<'a>(&self, s: &'a [u8], i: usize) -> &'a [u8]
        requires { SiblingPlaced s.now self.now.offsets i }
        ensures { result.now ≡ bytes (node i (tree_of s.now)) }
    {
        &s[self.offsets[i]..self.offsets[i + 1]]
    }

    // The first sibling that equals sibling i: the parts of two siblings are compared.
    fn first_equal(&self, s: &[u8], i: usize) -> usize
        requires sibling { SiblingPlaced s.now self.now.offsets i }
        requires classed { (marked : ℕ → Bool) × Classed marked (tree_of s.now) i self.now.kinds }
        ensures { FirstEqual (tree_of s.now) i result }
    {
        for j in 0..i {
            if usize::from(self.kinds[j]) == j && equal(self.part(s, j), self.part(s, i)) {
                return j;
            }
        }
        i
    }

    // The class of sibling i: the first sibling that equals it, or itself where it holds a marked label.
    fn class_of(&self, s: &[u8], marks: &[u8], i: usize) -> usize
        requires sibling { SiblingPlaced s.now self.now.offsets i }
        requires classed { Classed (marked_in marks.now) (tree_of s.now) i self.now.kinds }
        ensures { ClassOf (marked_in marks.now) (tree_of s.now) i result }
    {
        if holds_marked(self.part(s, i), marks) {
            return i;
        }
        self.first_equal(s, i)
    }

    // Gives each of the m siblings its class, so that two siblings are equal and free where these are the same.
    pub fn classify(&mut self, s: &[u8], marks: &[u8], m: usize)
        requires spelled { Spelled s.now }
        requires placed { Placed s.now self.old.offsets }
        requires s_value { (siblings (tree_of s.now) ≡ m) × (m ≤ 1024) }
        ensures same_places { (self.new.offsets ≡ self.old.offsets) × (self.new.numbers ≡ self.old.numbers) }
        ensures classed { Classed (marked_in marks.now) (tree_of s.now) m self.new.kinds }
    {
        for i in 0..m {
            self.kinds[i] = self.class_of(s, marks, i) as u16;
        }
    }
}

// Whether two siblings with these parts are equal, label and children together.
fn equal(a: &[u8], b: &[u8]) -> bool
    ensures { IsTrue result ↔ (a.now ≡ b.now) }
{
    a == b
}

// Whether a marked label stands anywhere in a part of a run.
fn holds_marked(part: &[u8], marks: &[u8]) -> bool
    ensures { result ≡ marked_from (marked_in marks.now) false part.now }
{
    let mut label = false;
    for &c in part {
        if label && is_marked(marks, c) {
            return true;
        }
        label = !label && c != Format::GROUP_END;
    }
    false
}
