//! Which nodes were come to, after how many finished steps.

use base::NoMemory;
use std::alloc::Global;

/// Whether a node was come to with so many finished steps.
#[derive(Clone, Copy, Debug, PartialEq, Eq)]
pub(crate) enum Mark {
    /// Not yet.
    New,
    /// It is on the way that is followed.
    OnTheWay,
    /// All ways from there were followed.
    Done,
}

/// How many marks a node has: more than an intent has steps
const ROW: usize = 64;

/// A mark for each node and number of finished steps.
#[derive(Debug, Drop)]
pub(crate) struct Marks {
    marks: Vec<Mark>,
}

/// The place of a mark; the last one of the node where more steps are finished than there are marks
pub(crate) fn key_of(node: u32, done: usize) -> usize {
    node as usize * ROW + done.min(ROW - 1)
}

impl Marks {
    /// None was come to, of so many nodes.
    pub(crate) fn new(alloc: Global, nodes: u32) -> Result<Marks, NoMemory> {
        let mut marks = Vec::new(alloc);
        marks.resize(nodes as usize * ROW, Mark::New)?;
        Ok(Marks { marks })
    }

    /// The mark at a place.
    pub(crate) fn at(&self, key: usize) -> Mark {
        match self.marks.get(key) {
            Some(mark) => *mark,
            None => Mark::Done,
        }
    }

    /// Sets the mark at a place.
    pub(crate) fn set(&mut self, key: usize, mark: Mark) {
        if key < self.marks.len() {
            self.marks[key] = mark;
        }
    }
}
