// Commands in byte order, with labels 1 and 2.
use format::Format;

// A command and its operands: a label, or a count and a width. Counts and widths are below 256 here.
#[derive(Clone, Copy)]
pub enum Command {
    Step(u8),
    Group(u8),
    GroupEnd,
    Repeat { count: u8, width: u8 },
    RepeatEnd,
}

impl Command {
    // The command that all others follow.
    pub const FIRST: Command = Command::Step(1);

    // The command that follows one in byte order, with counts from 2 and widths from 1, both up to `most`; none behind the last.
    pub fn next(self, most: u8) -> Option<Command> {
        match self {
            Command::Step(1) => Some(Command::Step(2)),
            Command::Step(_) => Some(Command::Group(1)),
            Command::Group(1) => Some(Command::Group(2)),
            Command::Group(_) => Some(Command::GroupEnd),
            Command::GroupEnd => Some(next_repeat(1, most, most)),
            Command::Repeat { count, width } => Some(next_repeat(count, width, most)),
            Command::RepeatEnd => None,
        }
    }

    // Writes a command at a place, and gives the place behind it; none where there is no room.
    pub fn write(self, string: &mut [u8], at: usize) -> Option<usize> {
        match self {
            Command::Step(label) => put(&[Format::STEP, label], string, at),
            Command::Group(label) => put(&[Format::GROUP, label], string, at),
            Command::GroupEnd => put(&[Format::GROUP_END], string, at),
            Command::Repeat { count, width } => {
                put(&[Format::REPEAT, 0, count, 0, width], string, at)
            }
            Command::RepeatEnd => put(&[Format::REPEAT_END], string, at),
        }
    }
}

// The repeat that follows one of this count and width; then the close.
fn next_repeat(count: u8, width: u8, most: u8) -> Command {
    if width < most {
        return Command::Repeat {
            count,
            width: width + 1,
        };
    }
    if count < most {
        return Command::Repeat {
            count: count + 1,
            width: 1,
        };
    }
    Command::RepeatEnd
}

fn put(bytes: &[u8], string: &mut [u8], at: usize) -> Option<usize> {
    let end = at.checked_add(bytes.len())?;
    string.get_mut(at..end)?.copy_from_slice(bytes);
    Some(end)
}
