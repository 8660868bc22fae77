// Writing the cheapest fold by the choices in the table, in either family of commands. What has no room is left out and the place
// behind the fold is answered all the same, so over an empty output the writer only measures. A sequence goes by the numbers of
// its nodes: from that of its first one down to the one that it ends at.
#![tactic(auto)]

ghost use Rattle.std.specs.Prelude.{◌≡◌, ◌<◌, ◌≤◌, length, get_or};
ghost use Rattle.table.specs.Keys.{pair_digits};
ghost use Rattle.table.specs.Table.{cell};
ghost use Rattle.writer.specs.Writing.{WriteReady, SpanFits, NodeFits, FoldLength, FoldWritten, SpanWritten, NodeWritten, Follows, follow};

use format::Format;
use put::{put_byte, put_open};
use table::{Nodes, count_digit, covered, entry, pair_digits, width_digit};

// What folds of a run are written from: its bytes, its nodes, and what the table chose; and the family of commands.
#[derive(Clone, Copy)]
pub struct Source<'a> {
    pub run: &'a [u8],
    pub nodes: &'a Nodes,
    pub choices: &'a [u32],
    pub short: bool,
}

impl Source<'_> {
    // The length of the cheapest fold of a sequence of the run, whose nodes are listed.
    pub fn fold_length(&self, first: usize, behind: usize) -> usize
        requires { WriteReady self.now first behind }
        ensures { FoldLength self.now first behind result }
    {
        let mut none: [u8; 0] = [0; 0];
        self.put_fold(first, behind, &mut none)
    }

    // Writes the cheapest fold of a sequence at the front of the output, and answers its length.
    #[cycle(writing)]
    pub fn put_fold(&self, first: usize, behind: usize, out: &mut [u8]) -> usize
        requires { WriteReady self.now first behind }
        ensures { FoldWritten self.now first behind out.old out.new result }
    {
        self.put_span(first, behind, out, 0)
    }

    // Writes the cheapest fold of a sequence from the place `to` on, and answers the place behind it. What follows an item is a
    // sequence again, and so is the body of a repeat.
    #[cycle(writing)]
    fn put_span(&self, first: usize, behind: usize, out: &mut [u8], to: usize) -> usize
        requires { SpanFits self.now first behind to }
        ensures { SpanWritten self.now first behind to out.old out.new result }
    {
        let mut q = first;
        let mut p = to;
        // Stays: a turn goes on by all that an item covers, so no range counts the turns.
        while behind < q {
            let pair = self.pair_at(behind, q);
            if pair == 0 {
                p = self.put_node(q, out, p);
                q = self.nodes.nexts[q];
            } else {
                let w = width_digit(pair);
                let end = self.skip(q, w);
                p = put_open(out, p, self.short, count_digit(pair), w);
                p = self.put_span(q, end, out, p);
                put_byte(out, p, Format::REPEAT_END);
                p += 1;
                q = self.skip(end, covered(pair) - w);
            }
        }
        p
    }

    // Writes the node of number q with the cheapest fold of what it holds: a group's children go into the rest of the lent output,
    // the empty one at its end where the output is full.
    #[cycle(writing)]
    fn put_node(&self, q: usize, out: &mut [u8], to: usize) -> usize
        requires { NodeFits self.now q to }
        ensures { NodeWritten self.now q to out.old out.new result }
    {
        let at = self.nodes.places[q];
        let command = self.run[at];
        put_byte(out, to, command);
        put_byte(out, to + 1, self.run[at + 1]);
        if command == Format::STEP {
            return to + 2;
        }
        let start = to + 2;
        let lent = start.min(out.len());
        let n = self.put_fold(q - 1, self.nodes.nexts[q], &mut out[lent..]);
        let close = start + n;
        put_byte(out, close, Format::GROUP_END);
        close + 1
    }

    // The pair that comes first in the sequence from number q on that ends at number `behind`, as the table has it.
    fn pair_at(&self, behind: usize, q: usize) -> u64
        requires { (behind < q) × (q ≤ 1024) × (cell behind q < length self.now.choices.now) }
        ensures { result ≡ pair_digits (get_or self.now.choices.now (cell behind q) 0) }
    {
        pair_digits(u64::from(self.choices[entry(behind, q)]))
    }

    // The number of the sibling k further on than that of number q, or of the end where there are no more.
    fn skip(&self, q: usize, k: usize) -> usize
        requires { Follows self.now.nodes.now.nexts q k }
        ensures { result ≡ follow self.now.nodes.now.nexts q k }
    {
        let mut at = q;
        for _ in 0..k {
            at = self.nodes.nexts[at];
        }
        at
    }
}
