// The nodes of a whole run, listed by their numbers in one pass over its bytes; and the siblings of one sequence by that listing.
ghost use Rattle.std.specs.Prelude.{◌≡◌, List, ℕ, ◌<◌, ◌≤◌, length};
ghost use Rattle.format.specs.Forest.{Forest, siblings, nodes, bytes};
ghost use Rattle.format.specs.Tree.{tree_of};
ghost use Rattle.optimum.specs.Cheapest.{front, node};
ghost use Rattle.table.specs.Listing.{Spelled, Placed, Numbered};
ghost use Rattle.table.specs.Nodes.{NodesListed, SpanListed, Reached, SequenceAt, ListedOver};

use crate::Lists;
use crate::listing::Siblings;
use format::Format;

// The nodes of a run by their numbers: where each stands, and which number comes next at its level, or where its sequence ends.
#[derive(Drop)]
pub struct Nodes {
    pub places: [usize; Lists::LENGTH],
    pub nexts: [usize; Lists::LENGTH],
}

// An offset in a run, and the number of the node that stands there.
#[derive(Clone, Copy)]
pub struct Spot {
    pub at: usize,
    pub number: usize,
}

// Where a sequence stands in its run: the offset of its first byte, the number of its first node, and how many nodes of the run
// follow behind it. An empty one has the number of those for its first.
#[derive(Clone, Copy)]
pub struct Span {
    pub start: usize,
    pub first: usize,
    pub behind: usize,
}

impl Nodes {
    // Lists the sequence at a spot, up to the end of the run or to a close, and gives the spot behind it. Siblings take no stack:
    // only what a group holds is listed by a call.
    fn list_from(&mut self, run: &[u8], from: Spot) -> Spot
        requires stands { (b : ℕ) × ((t : Forest) × SequenceAt run.now from b t) }
        requires few { from.number ≤ 1024 }
        ensures { (b : ℕ) (t : Forest) → SequenceAt run.now from b t → ListedOver self.old.places self.old.nexts self.new.places self.new.nexts from b t result }
    {
        let mut p = from;
        // Stays: a step moves the spot by two bytes and a group by all that it holds, so no range counts the turns.
        while p.at < run.len() && run[p.at] != Format::GROUP_END {
            let q = p.number;
            self.places[q] = p.at;
            let inside = Spot {
                at: p.at + 2,
                number: q - 1,
            };
            if run[p.at] == Format::STEP {
                p = inside;
            } else {
                let held = self.list_from(run, inside);
                p = Spot {
                    at: held.at + 1,
                    number: held.number,
                };
            }
            self.nexts[q] = p.number;
        }
        p
    }

    // Lists the run, of n nodes.
    pub fn list(&mut self, run: &[u8], n: usize)
        requires spelled { Spelled run.now }
        requires run_value { (nodes (tree_of run.now) ≡ n) × (n ≤ 1024) }
        ensures { NodesListed self.new.places self.new.nexts 0 0 (tree_of run.now) }
    {
        self.list_from(run, Spot { at: 0, number: n });
    }

    // Lists the siblings of the sequence s, a listed span of its run, and answers how many there are. The entry behind the last one
    // is the end.
    pub fn list_siblings(&self, s: &[u8], span: Span, row: &mut Siblings) -> usize
        requires spelled { Spelled s.now }
        requires span_listed { SpanListed self.now.places self.now.nexts span (tree_of s.now) }
        ensures counted { result ≡ siblings (tree_of s.now) }
        ensures placed { Placed s.now row.new.offsets }
        ensures numbered { Numbered span.behind (tree_of s.now) row.new.numbers }
        ensures same_kinds { row.new.kinds ≡ row.old.kinds }
    {
        let start = span.start;
        let behind = span.behind;
        let mut q = span.first;
        let mut m = 0;
        // Stays: a turn follows the link to the next sibling, so no range counts the turns.
        while behind < q {
            row.offsets[m] = self.places[q] - start;
            row.numbers[m] = q;
            q = self.nexts[q];
            m += 1;
        }
        row.offsets[m] = s.len();
        row.numbers[m] = behind;
        m
    }

    // Where the sibling of number q starts in the sequence s, a listed span of its run, or where s ends, for the number behind the last.
    fn offset_of(&self, s: &[u8], span: Span, q: usize) -> usize
        requires spelled { Spelled s.now }
        requires span_listed { (nexts : List ℕ) × SpanListed self.now.places nexts span (tree_of s.now) }
        requires reached { (i : ℕ) × Reached span.behind (tree_of s.now) i q }
        ensures { (i : ℕ) → Reached span.behind (tree_of s.now) i q → result ≡ length (bytes (front i (tree_of s.now))) }
    {
        if q == span.behind {
            return s.len();
        }
        self.places[q] - span.start
    }

    // The part of the sibling of number q: a sub-slice of the sequence's bytes, up to where the next one starts.
    pub fn part_of<'a>(&self, s: &'a [u8], span: Span, q: usize) -> &'a [u8]
        requires spelled { Spelled s.now }
        requires span_listed { SpanListed self.now.places self.now.nexts span (tree_of s.now) }
        requires behind_lt_q { (span.behind < q) × ((i : ℕ) × Reached span.behind (tree_of s.now) i q) }
        ensures { (i : ℕ) → Reached span.behind (tree_of s.now) i q → result.now ≡ bytes (node i (tree_of s.now)) }
    {
        let at = self.offset_of(s, span, q);
        let end = self.offset_of(s, span, self.nexts[q]);
        &s[at..end]
    }
}
