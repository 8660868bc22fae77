// The unroller: writes the run that a fold unrolls to. Of the format, and of season runs.
#![tactic(auto)]

mod write;

ghost use Rattle.std.specs.Prelude.{◌≡◌, length, take, IfOk};
ghost use Rattle.format.specs.Limits.{at_most};
ghost use Rattle.format.specs.Readings.{measured_by};
ghost use Rattle.format.specs.Meaning.{MeansIn};
ghost use Rattle.format.specs.Output.{written_answer, written_output};
ghost use Rattle.format.specs.Answers.{written_said};

use format::{Kind, Reason, Refusal};
use reader::measure;
use write::{Place, put_sequence};

// Refusals 12, 1, 21 and 3 to 10, then 14 where the output is shorter than the run; or the length written. What it writes is, in
// the report's words, the run that the fold means.
#[tactic(auto, using(crate::proofs::Answers::fold_refused))]
pub fn unroll<K: Kind>(fold: &[u8], limit: usize, out: &mut [u8]) -> Result<usize, Refusal>
    ensures answered { written_said result ≡ written_answer (measured_by K.bounds fold.now limit) (length out.old) }
    ensures written { out.new ≡ written_output (measured_by K.bounds fold.now limit) out.old }
    ensures meant { IfOk result (λ n. MeansIn K.bounds (at_most limit) fold.now (take n out.new)) }
{
    // The whole fold is read before a byte is written: only then are its refusals and the length known.
    let read = measure::<K>(fold, limit)?;
    if out.len() < read.length {
        return Err(Reason::ShortOutput.at(0));
    }
    put_sequence(fold, out, Place { at: 0, to: 0 });
    Ok(read.length)
}
