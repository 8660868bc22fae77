// Whether a fold is read as its run is.
ghost use Rattle.std.specs.Prelude.{◌↔◌, IsTrue};
ghost use Rattle.format.specs.StepsAndDepth.{Alike};
ghost use Rattle.format.specs.Answers.{fold_said};

use format::{FoldCounts, Format, Refusal};
use reader::read_run;

// Whether a fold's reading is success with the nodes, the bytes, the steps and the depth of the run, which is accepted.
pub fn alike(r: Result<FoldCounts, Refusal>, run: &[u8]) -> bool
    ensures { IsTrue result ↔ Alike (fold_said r) run.now }
{
    match (r, read_run::<Format>(run)) {
        (Ok(fold), Ok(counts)) => {
            fold.nodes == counts.nodes
                && fold.length == run.len()
                && fold.steps == counts.steps
                && fold.depth == counts.depth
        }
        _ => false,
    }
}
