// One call of the folder or the unroller, with every entry of the lent slices looked at: each is filled before, and afterwards
// holds what docs/FORMAT.md says.
ghost use Rattle.std.specs.Prelude.{◌≡◌, ◌≤◌, ◌↔◌, length, replicate, IsTrue};
ghost use Rattle.format.specs.Readings.{run_reading};
ghost use Rattle.format.specs.Answers.{folded_said, written_said, tariff_of};
ghost use Rattle.folder.specs.Folding.{folding, fold_answer, fold_output, fold_work};
ghost use Rattle.harness.specs.Lent.{filled_words, filled_bytes, Cleared, Untouched, Begins, used, LentAsSaid, unroll_says, unroll_leaves, Unrolls};

use folder::fold;
use format::{Costs, Format, PricedFold, Reason, Refusal};
use reader::read_run;
use unroller::unroll;

// What stands in the lent slices before a call: of the work slices, and of the bytes.
const WORD: u32 = 0xa5a5a5a5;

const BYTE: u8 = 0xee;

// Fills a work slice.
pub fn fill_words(s: &mut [u32])
    ensures { s.new ≡ filled_words (length s.old) }
{
    s.fill(WORD);
}

// Stays: this is `fill`, with a name for words and one for bytes, so that the contracts say what stands in either.
// Fills a slice of bytes.
pub fn fill_bytes(s: &mut [u8])
    ensures { s.new ≡ filled_bytes (length s.old) }
{
    s.fill(BYTE);
}

// Whether every entry is x.
fn all_are(s: &[u32], x: u32) -> bool
    ensures { IsTrue result ↔ (s.now ≡ replicate (length s.now) x) }
{
    s.iter().all(|y| *y == x)
}

// Whether the first entries, n of them, are 0 and the others untouched.
pub fn cleared(s: &[u32], n: usize) -> bool
    ensures { IsTrue result ↔ Cleared s.now n }
{
    n <= s.len() && all_are(&s[..n], 0) && all_are(&s[n..], WORD)
}

// Whether the bytes from a place on are untouched.
pub fn untouched(s: &[u8], from: usize) -> bool
    ensures { IsTrue result ↔ Untouched s.now from }
{
    s.len() <= from || s[from..].iter().all(|b| *b == BYTE)
}

// Whether the first n bytes of a slice are those of another.
pub fn begins(s: &[u8], n: usize, with: &[u8]) -> bool
    ensures { IsTrue result ↔ Begins s.now n with.now }
{
    n <= s.len() && &s[..n] == with
}

// The nodes of a run; 0 of one that is refused.
fn nodes_of(run: &[u8]) -> usize
    ensures { result ≡ (run_reading run.now).nodes }
{
    match read_run::<Format>(run) {
        Ok(counts) => counts.nodes,
        Err(_) => 0,
    }
}

// The entries that the folder has used: n × (n + 1) / 2 after success and after 14, none after another refusal.
fn used_entries(answer: &Result<PricedFold, Refusal>, nodes: usize) -> usize
    requires { nodes ≤ 1024 }
    ensures { result ≡ used (folded_said answer.now).refusal nodes }
{
    match answer {
        Ok(_) => nodes * (nodes + 1) / 2,
        Err(refusal) if refusal.reason == Reason::ShortOutput => nodes * (nodes + 1) / 2,
        Err(_) => 0,
    }
}

// The folder's answer, and whether what was looked at is right.
#[derive(Clone, Copy)]
pub struct Checked {
    pub answer: Result<PricedFold, Refusal>,
    pub right: bool,
}

// The folder on filled slices. It is right where the slices afterwards are as they must be whatever the fold: all entries beyond the
// fold are as docs/FORMAT.md says.
pub fn fold_checked(
    run: &[u8],
    limit: usize,
    tariff: &Costs,
    costs: &mut [u32],
    choices: &mut [u32],
    out: &mut [u8],
) -> Checked
    ensures answered { folded_said result.answer ≡ fold_answer (folding run.now limit (tariff_of tariff.now)) (length costs.old) (length choices.old) (length out.old) }
    ensures written { out.new ≡ fold_output (folding run.now limit (tariff_of tariff.now)) (length costs.old) (length choices.old) (filled_bytes (length out.old)) }
    ensures costs_cleared { costs.new ≡ fold_work (folding run.now limit (tariff_of tariff.now)) (length costs.old) (length choices.old) (filled_words (length costs.old)) }
    ensures choices_cleared { choices.new ≡ fold_work (folding run.now limit (tariff_of tariff.now)) (length costs.old) (length choices.old) (filled_words (length choices.old)) }
    ensures looked_at { IsTrue result.right ↔ LentAsSaid run.now (folded_said result.answer) costs.new choices.new out.new }
{
    fill_words(costs);
    fill_words(choices);
    fill_bytes(out);
    let answer = fold(run, limit, tariff, costs, choices, out);
    let right = kept(run, &answer, costs, choices, out);
    Checked { answer, right }
}

// Whether the slices are so.
fn kept(
    run: &[u8],
    answer: &Result<PricedFold, Refusal>,
    costs: &[u32],
    choices: &[u32],
    out: &[u8],
) -> bool
    ensures { IsTrue result ↔ LentAsSaid run.now (folded_said answer.now) costs.now choices.now out.now }
{
    let length = match answer {
        Ok(fold) => fold.length,
        Err(_) => 0,
    };
    let n = used_entries(answer, nodes_of(run));
    cleared(costs, n) && cleared(choices, n) && untouched(out, length)
}

// Whether a fold unrolls to a run, with the text beyond it untouched.
pub fn unrolls(fold: &[u8], limit: usize, run: &[u8], text: &mut [u8]) -> bool
    ensures written { text.new ≡ unroll_leaves fold.now limit (filled_bytes (length text.old)) }
    ensures looked_at { IsTrue result ↔ Unrolls (unroll_says fold.now limit (length text.old)) run.now text.new }
{
    fill_bytes(text);
    let answer = unroll::<Format>(fold, limit, text);
    unrolled(answer, run, text)
}

// Whether the unroller's answer and the text are so.
pub fn unrolled(answer: Result<usize, Refusal>, run: &[u8], text: &[u8]) -> bool
    ensures { IsTrue result ↔ Unrolls (written_said answer) run.now text.now }
{
    match answer {
        Ok(length) => untouched(text, length) && begins(text, length, run),
        Err(_) => false,
    }
}
