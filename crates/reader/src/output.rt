// What restoring answers.
ghost use Rattle.std.specs.Prelude.{Some};
ghost use Rattle.reader.specs.MarkText.{mark_text};

use std::fmt;

// How bytes came back: restored by a method, or passed on as they were since the filter is unresolved.
#[derive(Clone, Copy)]
pub enum Mark {
    Restored,
    Passed,
}

// The mark, and how many bytes stand at the front of the buffer.
#[derive(Clone, Copy)]
pub struct Output {
    pub mark: Mark,
    pub count: usize,
}

// The mark in one word.
impl fmt::Display for Mark {
    ghost output = { λ x. Some (mark_text x) };

    fn fmt<W: fmt::Write>(&self, f: &mut fmt::Formatter<W>) -> fmt::Result {
        match self {
            Mark::Restored => write!(f, "restored"),
            Mark::Passed => write!(f, "passed"),
        }
    }
}
