// What buffers hold before a call of the library and may hold after it.
use crate::fault::CallError;
use opening::file::File;
use opening::refusal::Refusal;
use reader::output::Output;

// What the work area holds before a call.
pub(crate) const WORK_FILL: u8 = 0x5A;

// What every other buffer holds before a call.
pub(crate) const BUFFER_FILL: u8 = 0xA5;

// Nothing, if the work area was cleared.
pub(crate) fn cleared(work: &[u8]) -> Result<(), CallError> {
    if work.iter().all(|b| *b == 0) {
        Ok(())
    } else {
        Err(CallError::WrongBuffer)
    }
}

// An answer that says how many bytes the call wrote.
pub(crate) trait Counted: Drop {
    fn count(&self) -> usize;
}

impl Counted for usize {
    fn count(&self) -> usize {
        *self
    }
}

impl Counted for Output {
    fn count(&self) -> usize {
        self.count
    }
}

// Setting a file up writes its U.
impl Counted for File {
    fn count(&self) -> usize {
        32
    }
}

// The answer of a call, and what it wrote to the front of its buffer. Behind that the buffer is as it was before, and
// whole on a refusal.
pub(crate) fn handed_out<T: Counted>(
    answer: Result<T, Refusal>,
    mut out: Vec<u8>,
) -> Result<(T, Vec<u8>), CallError> {
    let count = match &answer {
        Ok(done) => done.count(),
        Err(_) => 0,
    };
    if out.iter().skip(count).any(|b| *b != BUFFER_FILL) {
        return Err(CallError::WrongBuffer);
    }
    let done = answer?;
    out.truncate(count);
    Ok((done, out))
}
