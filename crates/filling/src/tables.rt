// What every sequence is priced by.

// What a step and what a group costs by its label; the marks of the labels; and what a repeat costs by its count.
#[derive(Clone, Copy)]
pub struct Tables<'a> {
    pub steps: &'a [u16],
    pub groups: &'a [u16],
    pub marks: &'a [u8],
    pub repeats: &'a [u64],
}
