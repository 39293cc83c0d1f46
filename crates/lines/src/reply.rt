// The answer to a line.
use crate::fault::{CallError, LineError};
use filters::tag::Tag;
use opening::file::File;
use reader::output::Mark;

// The answer to one call on a run.
#[derive(Drop)]
pub enum Step {
    // what a feeding handed out
    Fed(Vec<u8>),
    // what a closing handed out
    Closed(Mark, Vec<u8>),
    // the closing space, what feeding a piece of the length that was asked for hands out, and the closing space after it
    Asked(Option<usize>, Option<usize>, Option<usize>),
    Failed(CallError),
}

#[derive(Drop)]
pub enum Reply {
    // an empty line or a comment
    Quiet,
    // the fields of a paper, for the lines behind it
    Noted,
    // bytes that a primitive gave
    Out(Vec<u8>),
    // A primitive does not take the key.
    // Stays an answer, and no error: the format has `none` among the answers of a primitive.
    NoKey,
    // an opened file
    Opened(File),
    // a file that was set up, and its U
    SetUp(File, Vec<u8>),
    // a filter with its tag
    Found(Tag),
    // a filter name that the table does not list
    NotListed(Vec<u8>),
    // a filter name whose entry has no method text
    NoMethod(Vec<u8>),
    // a method text that the series does not know
    UnknownMethod(Vec<u8>),
    Restored(Mark, Vec<u8>),
    Protected(Vec<u8>),
    // a run from its start through a list of calls
    Ran(Vec<Step>),
    // a run that later lines go on with, under its number from 1
    Started(usize),
    // a call on such a run
    Stepped(Step),
    Error(LineError),
}
