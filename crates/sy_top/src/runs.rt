// What a top call answers.

ghost use Rattle.std.specs.Prelude.{◌≡◌};
ghost use Rattle.sy_top.specs.Notes.{status_of};

use crate::notes::Ended;

/// Whether standard error was told how the call ended.
#[derive(Clone, Copy, PartialEq, Eq, Debug)]
pub enum Note {
    /// There is nothing to tell.
    Nothing,
    /// All of the text was written.
    Written,
    /// Standard error met a fault, and has a part of the text.
    Failed,
}

/// What a call of the program comes to.
#[derive(Debug, Drop)]
pub struct Run {
    pub ended: Ended,
    /// The thread of each step that was made, in order.
    pub order: Vec<u32>,
    /// How many times the contents of a buffer were copied from one place to another.
    pub copies: u64,
    pub note: Note,
}

impl Run {
    /// The status that the program ends with.
    pub fn status(&self) -> u8
        ensures { result ≡ status_of self.now.ended }
    {
        self.ended.status()
    }
}
