// What the commands of a string lead to in a run: a string follows the run as long as each command does.
use crate::command::Command;
use crate::search::Search;
use format::Format;

// What the commands so far lead to: the place reached in the run, the place that what is open may reach, and the number of the
// command that opened it.
#[derive(Clone, Copy)]
pub struct Trace {
    pub at: usize,
    bound: usize,
    opener: Option<usize>,
}

impl Trace {
    // Before the first command.
    pub fn start(run: &[u8]) -> Trace {
        Trace {
            at: 0,
            bound: run.len(),
            opener: None,
        }
    }

    // The place behind bytes that must stand in the run.
    fn past(self, run: &[u8], bytes: &[u8]) -> Option<usize> {
        let end = self.at.checked_add(bytes.len())?;
        (run.get(self.at..end)? == bytes).then_some(end)
    }

    // A step or the open of a group must stand in the run.
    fn node(self, run: &[u8], bytes: &[u8], opener: Option<usize>) -> Option<Trace> {
        if self.bound <= self.at {
            return None;
        }
        let at = self.past(run, bytes)?;
        Some(Trace { at, opener, ..self })
    }

    // The copies of a repeat share the room that is left, and each needs two bytes for each of its siblings.
    fn repeat(self, count: u8, width: u8, k: usize) -> Option<Trace> {
        let left = self.bound.checked_sub(self.at)?;
        let pass = left.checked_div(usize::from(count))?;
        if count < 2 || pass < 2 * usize::from(width) {
            return None;
        }
        Some(Trace {
            at: self.at,
            bound: self.at.checked_add(pass)?,
            opener: Some(k),
        })
    }

    // The close of a group must stand in the run too. What is open then is what was before the group.
    fn group_end(self, run: &[u8], outer: Trace) -> Option<Trace> {
        let at = self.past(run, &[Format::GROUP_END])?;
        Some(Trace { at, ..outer })
    }

    // The close of a repeat: the copies must stand in the run. The body began where its open was reached.
    fn repeat_end(self, run: &[u8], count: u8, outer: Trace) -> Option<Trace> {
        let size = self.at.checked_sub(outer.at)?;
        let length = size.checked_mul(usize::from(count))?;
        let end = outer.at.checked_add(length)?;
        let first = run.get(outer.at..end.checked_sub(size)?)?;
        (size != 0 && first == run.get(self.at..end)?).then_some(Trace { at: end, ..outer })
    }

    // The close of what is open: the kinds must agree.
    fn close(self, run: &[u8], command: Command, search: &Search<Trace>) -> Option<Trace> {
        let opened = search.entry(self.opener?)?;
        match (opened.command, command) {
            (Command::Group(_), Command::GroupEnd) => self.group_end(run, opened.before),
            (Command::Repeat { count, .. }, Command::RepeatEnd) => {
                self.repeat_end(run, count, opened.before)
            }
            _ => None,
        }
    }
}

// What the string of a search leads to; none where it leaves the run or is too long.
pub fn follow(run: &[u8], search: &Search<Trace>) -> Option<Trace> {
    let Some((k, last)) = search.last() else {
        return Some(Trace::start(run));
    };
    let before = last.before;
    match last.command {
        Command::Step(label) => before.node(run, &[Format::STEP, label], before.opener),
        Command::Group(label) => before.node(run, &[Format::GROUP, label], Some(k)),
        Command::Repeat { count, width } => before.repeat(count, width, k),
        end => before.close(run, end, search),
    }
}
