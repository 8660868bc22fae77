// The lists that the rows of a sequence are worked in, from the last sibling's to the first's.
ghost use Rattle.solver.specs.Rows.{KeysReady, TailsReady};

use table::Lists;

// By width, how many siblings from the row's own on equal those that far on, `matches`. By sibling, what the rows of the siblings
// behind have left: how far each is solved, `extents`, what it adds as a tail, `tails`, and where its first items end, `stops`. And by
// cover or size, what serves one row alone: the covers that are marked, `seen`, and the row's keys, `keys`.
#[derive(Drop)]
pub struct Rows {
    pub matches: [u16; Lists::LENGTH],
    pub extents: [usize; Lists::LENGTH],
    pub tails: [u64; Lists::LENGTH],
    pub stops: [usize; Lists::LENGTH],
    pub seen: [usize; Lists::LENGTH],
    pub keys: [u64; Lists::LENGTH],
    pub ghost tails_ready: { TailsReady tails },
    pub ghost keys_ready: { KeysReady keys },
}
