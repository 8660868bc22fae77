// The two kinds of runs that the format knows, and what it bounds in each.
ghost use Rattle.std.specs.Prelude.{◌≡◌, ◌<◌};
ghost use Rattle.std.proofs.Common.{rules};
ghost use Rattle.format.specs.Limits.{Limits, limits, season};

// What the format bounds: the nodes of a run, the groups and the repeats open at a time, the width limit; and the entries
// that a cost table and the list of marks have.
#[derive(Clone, Copy)]
pub struct Limits {
    pub nodes: usize,
    pub groups: usize,
    pub repeats: usize,
    pub width: usize,
    pub labels: usize,
}

// A kind of runs, by its limits. What reads or unrolls a run or a fold is written once, for every kind.
pub trait Kind {
    ghost bounds: { Limits };

    // The limits together: those that the definitions have.
    fn limits() -> Limits
        ensures { result ≡ bounds };

    // Limits of 16 bits, so that machine words hold what is counted within them.
    ghost bounded: { (bounds.nodes < 65536) × (bounds.groups < 65536) × (bounds.repeats < 65536) };
}

// The format of runs and folds. A run is an ordered forest, a fold its repetition representation.
#[derive(Clone, Copy)]
pub struct Format {}

impl Format {
    // The most nodes that a run, or the run of a fold, may have.
    pub const NODES: usize = 1024;
    // The most groups open at a time.
    pub const GROUPS: usize = 8;
    // The most repeats open at a time.
    pub const REPEATS: usize = 10;
    // The largest width limit.
    pub const WIDTH: usize = 1024;
    // The entries of a cost table and of the marks: one for each label.
    pub const LABELS: usize = 256;
    // The greatest number that an operand of two bytes says.
    pub const GREATEST_OPERAND: usize = 65535;

    // The commands are bytes of the input, so they are constants and no enum: a `match` on them reads the same.
    // A step: its label follows.
    pub const STEP: u8 = 0x10;
    // Opens a group: its label follows.
    pub const GROUP: u8 = 0x11;
    // Closes a group.
    pub const GROUP_END: u8 = 0x12;
    // Opens a repeat: count and width follow, two bytes each, the high byte first.
    pub const REPEAT: u8 = 0x20;
    // Closes a repeat.
    pub const REPEAT_END: u8 = 0x21;
    // Opens a repeat in the short family: count and width follow, one byte each.
    pub const SHORT_REPEAT: u8 = 0x22;

    // The first number that one byte cannot hold: below it the short family says count and width in one byte each.
    pub const ONE_BYTE: usize = 256;
}

impl Kind for Format {
    ghost bounds = { limits };

    ghost bounded = { Prim.search rules };

    fn limits() -> Limits {
        Limits {
            nodes: Format::NODES,
            groups: Format::GROUPS,
            repeats: Format::REPEATS,
            width: Format::WIDTH,
            labels: Format::LABELS,
        }
    }
}

// The format of season runs: flat runs that a station records over a season, and their folds. The commands, the cost tables and the
// marks are the format's; the limits are these.
#[derive(Clone, Copy)]
pub struct Season {}

impl Season {
    // The most steps that a season run, or the run of its fold, may have.
    pub const NODES: usize = 65535;
    // No group may be open.
    pub const GROUPS: usize = 0;
    // The most repeats open at a time.
    pub const REPEATS: usize = 10;
    // The largest width limit.
    pub const WIDTH: usize = 32;
    // The entries of a cost table and of the marks: those of the format.
    pub const LABELS: usize = Format::LABELS;
}

impl Kind for Season {
    ghost bounds = { season };

    ghost bounded = { Prim.search rules };

    fn limits() -> Limits {
        Limits {
            nodes: Season::NODES,
            groups: Season::GROUPS,
            repeats: Season::REPEATS,
            width: Season::WIDTH,
            labels: Season::LABELS,
        }
    }
}
