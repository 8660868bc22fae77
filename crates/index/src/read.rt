// A fold that was read by itself and not refused.
ghost use Rattle.std.specs.Prelude.{◌≡◌, Ok};
ghost use Rattle.format.specs.Order.{Bytes};
ghost use Rattle.format.specs.Answers.{fold_said};
ghost use Rattle.format.specs.Readings.{as_fold_reading, fold_alone};

use format::FoldCounts;

// The fold with what the reader counted of it. What walks over it refuses nothing.
#[derive(Clone, Copy)]
pub struct ReadFold<'a> {
    pub bytes: &'a [u8],
    pub counts: FoldCounts,
    ghost small: { Bytes bytes.now },
    ghost counted: { fold_said (Ok counts) ≡ as_fold_reading (fold_alone bytes.now) },
}
