// The calls on objects of a paper: restoring, protecting, and runs.
use crate::act::Act;
use crate::buffer::{BUFFER_FILL, handed_out};
use crate::call::Call;
use crate::fault::{CallError, Fault, Flaw, LineError, Stage};
use crate::key::Key;
use crate::papers::open_paper;
use crate::reply::Reply;
use opening::file::{File, Target};
use reader::object::{Object, protect, protect_with, restore, restore_with, start, start_with};
use reader::run::Run;
use tagged::tag::{DecryptorState, DecryptorTag};

// What of a file a line is about, and the method that is handed in, if one is.
// Stays asked for the method in three functions: the calls by method and by tag that they choose from are three pairs.
#[derive(Clone, Copy)]
struct Subject {
    object: Object,
    target: Target,
    method: Option<DecryptorTag>,
}

impl Subject {
    fn read(call: &Call) -> Result<Subject, Fault> {
        Ok(Subject {
            object: Object {
                number: call.needed(Key::Obj)?,
                generation: call.needed(Key::Gen)?,
            },
            target: call.needed(Key::Target)?,
            method: call.value(Key::Method)?,
        })
    }

    // Starts a run by the tag or by the method that is handed in.
    fn start(&self, file: &File) -> Result<Run<DecryptorState>, CallError> {
        let run = match &self.method {
            Some(method) => start_with(file, method, self.object)?,
            None => start(file, self.target, self.object)?,
        };
        Ok(run)
    }
}

// The buffer that a line gives.
fn space(call: &Call) -> Result<Vec<u8>, Fault> {
    let len: u32 = call.needed(Key::Space)?;
    Ok(vec![in call.heap; BUFFER_FILL; len as usize]?)
}

// The line `restore`.
pub(crate) fn restore_line(call: &Call) -> Result<Reply, LineError> {
    let file = open_paper(call, Stage::Opening)?;
    let bytes: Vec<u8> = call.needed(Key::Data)?;
    let Subject {
        object,
        target,
        method,
    } = Subject::read(call)?;
    let mut out = space(call)?;
    let answer = match method {
        Some(m) => restore_with(&file, &m, object, bytes.as_slice(), out.as_mut_slice()),
        None => restore(&file, target, object, bytes.as_slice(), out.as_mut_slice()),
    };
    let (output, out) = handed_out(answer, out)?;
    Ok(Reply::Restored(output.mark, out))
}

// The line `protect`.
pub(crate) fn protect_line(call: &Call) -> Result<Reply, LineError> {
    let file = open_paper(call, Stage::Opening)?;
    let bytes: Vec<u8> = call.needed(Key::Data)?;
    let Subject {
        object,
        target,
        method,
    } = Subject::read(call)?;
    let iv = call.needed(Key::Iv)?;
    let mut out = space(call)?;
    let answer = match method {
        Some(m) => protect_with(&file, &m, object, &iv, bytes.as_slice(), out.as_mut_slice()),
        None => protect(
            &file,
            target,
            object,
            &iv,
            bytes.as_slice(),
            out.as_mut_slice(),
        ),
    };
    let (_, out) = handed_out(answer, out)?;
    Ok(Reply::Protected(out))
}

// The line `run`.
pub(crate) fn run_line(call: &Call) -> Result<Reply, LineError> {
    let file = open_paper(call, Stage::Opening)?;
    let mut run = Subject::read(call)?.start(&file)?;
    let mut steps = Vec::new(call.heap);
    for text in call.needed_parts(Key::Calls, b';')?.iter() {
        let act: Act = call.read(Key::Calls, text)?;
        steps.push(act.on(call.heap, &mut run)?)?;
    }
    Ok(Reply::Ran(steps))
}

// The line `start`: a run that later lines go on with.
pub(crate) fn start_line(
    runs: &mut Vec<Run<DecryptorState>>,
    call: &Call,
) -> Result<Reply, LineError> {
    let file = open_paper(call, Stage::Opening)?;
    runs.push(Subject::read(call)?.start(&file)?)?;
    Ok(Reply::Started(runs.len()))
}

// A line `feed`, `close` or `ask`.
// Stays beside `Act`: it is the line's word alone, before its texts are read.
#[derive(Clone, Copy)]
pub(crate) enum ActLine {
    Feed,
    Close,
    Ask,
}

impl ActLine {
    // The call on the run that the line gives. What is wrong with its texts is told of `calls`.
    fn read(self, call: &Call) -> Result<Act, Fault> {
        match self {
            ActLine::Feed => {
                let piece = call.needed_text(Key::Data)?;
                let space = call.needed_text(Key::Space)?;
                Ok(Act::Feed(call.read(Key::Calls, piece)?, call.read(Key::Calls, space)?))
            }
            ActLine::Close => Ok(Act::Close(call.read(Key::Calls, call.needed_text(Key::Space)?)?)),
            ActLine::Ask => Ok(Act::Ask(call.read(Key::Calls, call.needed_text(Key::Len)?)?)),
        }
    }
}

// The run that the line names by its number, from 1.
fn named_run<'a>(
    runs: &'a mut Vec<Run<DecryptorState>>,
    call: &Call,
) -> Result<&'a mut Run<DecryptorState>, Fault> {
    let number: u32 = call.needed(Key::Run)?;
    let unlisted = Fault::Bad(Key::Run, Flaw::NotListed);
    let at = number.checked_sub(1).ok_or(unlisted)?;
    runs.get_mut(at as usize).ok_or(unlisted)
}

// The lines `feed`, `close` and `ask`, on the run of a number.
pub(crate) fn act_line(
    runs: &mut Vec<Run<DecryptorState>>,
    line: ActLine,
    call: &Call,
) -> Result<Reply, LineError> {
    let run = named_run(runs, call)?;
    let act = line.read(call)?;
    Ok(Reply::Stepped(act.on(call.heap, run)?))
}
