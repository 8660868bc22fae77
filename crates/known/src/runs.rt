// Runs of steps, written as words of letters: a is the step 01.
use format::Format;

// The run of a word of letters, in what is lent for it; none where that is too short.
pub fn spell<'a>(letters: &[u8], lent: &'a mut [u8]) -> &'a [u8] {
    let steps = lent.as_chunks_mut::<2>().0;
    for (step, letter) in steps.iter_mut().zip(letters) {
        *step = [Format::STEP, letter.saturating_sub(b'a' - 1)];
    }
    lent.get(..letters.len().saturating_mul(2)).unwrap_or(&[])
}
