// The folds that a search has found, in lent memory.

// The bytes of a fold that the pool can hold, so that with its length an entry has 64.
const ROOM: usize = 63;

// A fold: the first bytes, `length` of them.
#[derive(Clone, Copy)]
pub struct Fold {
    bytes: [u8; ROOM],
    length: u8,
}

impl Fold {
    // The empty fold.
    pub const EMPTY: Fold = Fold {
        bytes: [0; ROOM],
        length: 0,
    };

    // The bytes of the fold.
    pub fn bytes(&self) -> &[u8] {
        self.bytes.get(..usize::from(self.length)).unwrap_or(&[])
    }

    // Takes the bytes of a fold; none where they are too many.
    fn set(&mut self, fold: &[u8]) -> Option<()> {
        self.bytes.get_mut(..fold.len())?.copy_from_slice(fold);
        self.length = u8::try_from(fold.len()).ok()?;
        Some(())
    }
}

// The folds that were found, the first of the lent entries.
#[derive(Drop)]
pub struct Folds<'a> {
    room: &'a mut [Fold],
    found: usize,
}

impl<'a> Folds<'a> {
    // None is found yet.
    pub fn new(room: &'a mut [Fold]) -> Folds<'a> {
        Folds { room, found: 0 }
    }

    // Keeps a fold; none where there is no room.
    pub fn keep(&mut self, fold: &[u8]) -> Option<()> {
        self.room.get_mut(self.found)?.set(fold)?;
        self.found = self.found.checked_add(1)?;
        Some(())
    }

    // The folds in the order in which they were found.
    pub fn found(self) -> &'a [Fold] {
        let Folds { room, found } = self;
        room.get(..found).unwrap_or(&[])
    }
}
