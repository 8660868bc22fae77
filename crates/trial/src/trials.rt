// What is tried: which runs, at which settings and under which marks.

// Some runs at some settings. The runs are all of up to `most` nodes, with groups or of steps alone; the settings have the numbers
// from one up to another; the marks are those of the labels 1 and 2.
pub struct Trial {
    pub name: &'static str,
    pub groups: bool,
    pub most: u8,
    pub from: usize,
    pub to: usize,
    pub marks: [u8; 2],
}

pub const TRIALS: [Trial; 8] = [
    Trial {
        name: "runs of up to 5 nodes",
        groups: true,
        most: 5,
        from: 0,
        to: 30,
        marks: [0, 0],
    },
    Trial {
        name: "runs of up to 6 nodes",
        groups: true,
        most: 6,
        from: 4,
        to: 10,
        marks: [0, 0],
    },
    Trial {
        name: "runs of up to 6 nodes, groups priced apart",
        groups: true,
        most: 6,
        from: 25,
        to: 30,
        marks: [0, 0],
    },
    Trial {
        name: "runs of up to 9 steps",
        groups: false,
        most: 9,
        from: 0,
        to: 30,
        marks: [0, 0],
    },
    Trial {
        name: "runs of up to 5 nodes, label 1 marked",
        groups: true,
        most: 5,
        from: 0,
        to: 30,
        marks: [1, 0],
    },
    Trial {
        name: "runs of up to 5 nodes, label 2 marked",
        groups: true,
        most: 5,
        from: 0,
        to: 30,
        marks: [0, 1],
    },
    Trial {
        name: "runs of up to 5 nodes, both marked",
        groups: true,
        most: 5,
        from: 0,
        to: 30,
        marks: [1, 1],
    },
    Trial {
        name: "runs of up to 9 steps, label 1 marked",
        groups: false,
        most: 9,
        from: 0,
        to: 30,
        marks: [1, 0],
    },
];
