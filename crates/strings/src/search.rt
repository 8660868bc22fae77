// The search over all command strings: one command more, or the next in place of the last.
use crate::command::Command;
use format::{Reason, Refusal};
use std::alloc::AllocError;

// The commands that a string may have, and the bytes.
const DEPTH: usize = 60;

const ROOM: usize = 128;

// More turns than any search takes here.
pub const TURNS: usize = 100000000;

// What a reader says of a string: it may be the beginning of what is looked for, it is that whole, or neither.
#[derive(Clone, Copy)]
pub enum Judgement {
    Neither,
    Beginning,
    Whole,
}

impl Judgement {
    // A string that only ends too early may be a beginning.
    pub fn of<T: Drop>(answer: Result<T, Refusal>) -> Judgement {
        match answer {
            Ok(_) => Judgement::Whole,
            Err(refusal) if refusal.reason == Reason::Unfinished => Judgement::Beginning,
            Err(_) => Judgement::Neither,
        }
    }
}

// What a search does next: it looks at its string, or goes back from it; or it is over, with all strings tried or short of room.
#[derive(Clone, Copy, PartialEq, Eq)]
pub enum Next {
    Look,
    Back,
    Done,
    Short,
}

// A command of a string, what was found of the commands before it, and where it begins.
#[derive(Clone, Copy)]
pub struct Entry<T> {
    pub command: Command,
    pub before: T,
    start: usize,
}

// A search: its string, in bytes and by its commands, and what it does next.
#[derive(Copy)]
pub struct Search<T> {
    bytes: [u8; ROOM],
    end: usize,
    entries: [Entry<T>; DEPTH],
    depth: usize,
    pub next: Next,
}

// By hand, since what is derived asks how each entry is cloned.
impl<T: Copy> Clone for Search<T> {
    ghost use Rattle.std.specs.Prelude.{◌≡◌, ⊤};

    ghost is_clone = { λ s r. r ≡ s };

    ghost is_infallible = { λ _. ⊤ };

    fn clone(&self) -> Result<Search<T>, AllocError> {
        Ok(*self)
    }
}

impl<T: Copy> Search<T> {
    // A search that begins with the empty string. What the entries hold before they are used is read nowhere.
    pub fn new(before: T) -> Search<T> {
        let blank = Entry {
            command: Command::FIRST,
            before,
            start: 0,
        };
        Search {
            bytes: [0; ROOM],
            end: 0,
            entries: [blank; DEPTH],
            depth: 0,
            next: Next::Look,
        }
    }

    // The string.
    pub fn string(&self) -> &[u8] {
        self.bytes.get(..self.end).unwrap_or(&[])
    }

    // A command of the string, by its number.
    pub fn entry(&self, k: usize) -> Option<Entry<T>> {
        self.entries.get(k).copied()
    }

    // The last command and its number.
    pub fn last(&self) -> Option<(usize, Entry<T>)> {
        let k = self.depth.checked_sub(1)?;
        Some((k, self.entry(k)?))
    }

    // Puts a command at the end of the string, as its command k, to be looked at; none where there is no room.
    fn put(&mut self, k: usize, entry: Entry<T>) -> Option<Next> {
        *self.entries.get_mut(k)? = entry;
        self.end = entry.command.write(&mut self.bytes, entry.start)?;
        self.depth = k.checked_add(1)?;
        Some(Next::Look)
    }

    // One command more, the first of all, behind those of which `before` was found.
    pub fn deeper(&mut self, before: T) {
        let entry = Entry {
            command: Command::FIRST,
            before,
            start: self.end,
        };
        self.next = self.put(self.depth, entry).unwrap_or(Next::Short);
    }

    // The next command in place of the last; where there is none, the one before is spent. Behind the first all were tried.
    pub fn retry(&mut self, most: u8) {
        let Some((k, entry)) = self.last() else {
            self.next = Next::Done;
            return;
        };
        let Some(command) = entry.command.next(most) else {
            self.depth = k;
            self.end = entry.start;
            return;
        };
        self.next = self
            .put(k, Entry { command, ..entry })
            .unwrap_or(Next::Short);
    }
}
