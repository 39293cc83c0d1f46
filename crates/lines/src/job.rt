// A job: lines of calls, answered one after the other.
ghost use Rattle.std.specs.Prelude.{◌≡◌, true, []};
ghost use Rattle.lines.specs.Job.{is_quiet};
ghost use Rattle.lines.specs.declared.reply.Reply.TheVariants.{Quiet};

use crate::call::Call;
use crate::fault::{Fault, LineError};
use crate::key::is_known;
use crate::objects::{act_line, protect_line, restore_line, run_line, start_line};
use crate::op::{Op, op_of};
use crate::papers::{looked_up, made, opened};
use crate::primitives::{chain, digest, one_block, stream};
use crate::reply::Reply;
use crate::text::{Words, first_word};
use aes::{Aes128, Aes256};
use reader::run::Run;
use std::alloc::Global;
use tagged::tag::DecryptorState;

// What the lines of a job leave for those behind them: the line with a paper's fields, and the runs that were started.
#[derive(Drop)]
pub struct Job {
    heap: Global,
    paper: Vec<u8>,
    runs: Vec<Run<DecryptorState>>,
}

// The number of the first word, from 2 on, that is no pair that is known.
fn unknown_pair(line: &[u8]) -> Option<usize> {
    let (i, _) = Words(line)
        .enumerate()
        .skip(1)
        .find(|(_, word)| !word.is_empty() && !is_known(word))?;
    Some(i + 1)
}

impl Job {
    // A job before its first line.
    pub fn new(heap: Global) -> Job
        ensures { result.paper.items ≡ [] }
    {
        Job {
            heap,
            paper: Vec::new(heap),
            runs: Vec::new(heap),
        }
    }

    fn call(&mut self, line: &[u8]) -> Result<Reply, LineError> {
        if let Some(word) = unknown_pair(line) {
            return Err(LineError::Malformed(Fault::UnknownPair(word)));
        }
        let op = op_of(first_word(line)).ok_or(Fault::UnknownCall)?;
        let call = Call {
            heap: self.heap,
            line,
            paper: self.paper.as_slice(),
        };
        // Stays a match: it is the one table of the lines' functions, which have no common parameters.
        match op {
            Op::Paper => {
                self.paper = Vec::from_slice(self.heap, line)?;
                Ok(Reply::Noted)
            }
            Op::Md5 => digest(&call),
            Op::Rc4 => stream(&call),
            Op::Aes128(way) => one_block::<Aes128>(way, &call),
            Op::Aes256(way) => one_block::<Aes256>(way, &call),
            Op::Cbc128(way) => chain::<Aes128>(way, &call),
            Op::Cbc256(way) => chain::<Aes256>(way, &call),
            Op::LookUp => looked_up(&call),
            Op::Open => opened(&call),
            Op::SetUp => made(&call),
            Op::Restore => restore_line(&call),
            Op::Protect => protect_line(&call),
            Op::Run => run_line(&call),
            Op::Start => start_line(&mut self.runs, &call),
            Op::On(line) => act_line(&mut self.runs, line, &call),
        }
    }

    // The answer to the next line.
    pub fn answer(&mut self, line: &[u8]) -> Reply
        ensures { is_quiet line.now ≡ true → result ≡ Quiet }
    {
        if is_quiet(line) {
            return Reply::Quiet;
        }
        self.call(line).unwrap_or_else(Reply::Error)
    }
}

// Whether a line is empty or a comment.
fn is_quiet(line: &[u8]) -> bool
    ensures { result ≡ is_quiet line.now }
{
    matches!(line, [] | [b'#', ..])
}
