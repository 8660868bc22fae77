// The conversions between the two families of commands: a fold to its short form, and a short fold to its long form. The whole
// input is read before a byte is written: only then are its refusals and the length known.
#![tactic(auto)]

mod form;

ghost use Rattle.std.specs.Prelude.{◌≡◌, length};
ghost use Rattle.format.specs.Family.{conversion, to_short, to_long};
ghost use Rattle.format.specs.Output.{written_answer, written_output};
ghost use Rattle.format.specs.Answers.{written_said};

use form::put_form;
use format::{Reason, Refusal};
use reader::read_alone;

// A fold to its short form: the fold's own refusals, 1, 3 to 6 and 8 to 10, then 14 where the output is shorter than the short
// form; or the length written.
pub fn to_short(fold: &[u8], out: &mut [u8]) -> Result<usize, Refusal>
    ensures answered { written_said result ≡ written_answer (to_short fold.now) (length out.old) }
    ensures written { out.new ≡ written_output (to_short fold.now) out.old }
{
    convert(fold, false, true, out)
}

// Stays: two names over one function, `convert`, as C has a function for each way.
// A short fold to its long form: the short fold's own refusals, those and 20, then 14; or the length written.
pub fn to_long(fold: &[u8], out: &mut [u8]) -> Result<usize, Refusal>
    ensures answered { written_said result ≡ written_answer (to_long fold.now) (length out.old) }
    ensures written { out.new ≡ written_output (to_long fold.now) out.old }
{
    convert(fold, true, false, out)
}

// A fold of the family `from` to its form in the family `short`.
fn convert(fold: &[u8], from: bool, short: bool, out: &mut [u8]) -> Result<usize, Refusal>
    ensures value { written_said result ≡ written_answer (conversion from short fold.now) (length out.old) }
    ensures out_after { out.new ≡ written_output (conversion from short fold.now) out.old }
{
    read_alone(fold, from)?;
    let length = put_form(fold, short, &mut []);
    if out.len() < length {
        return Err(Reason::ShortOutput.at(0));
    }
    put_form(fold, short, out);
    Ok(length)
}
