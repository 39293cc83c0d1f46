// A call on a run.
use crate::buffer::{BUFFER_FILL, handed_out};
use crate::call::Call;
use crate::fault::{CallError, Fault, Flaw};
use crate::from_text::FromText;
use crate::key::Key;
use crate::reply::Step;
use crate::text::{bytes_of, number_of, parts};
use byte_strings::same;
use reader::run::Run;
use std::alloc::Global;
use tagged::tag::DecryptorState;

// What a run is called for.
#[derive(Drop)]
pub(crate) enum Act {
    // takes a piece, with a buffer of so many bytes
    Feed(Vec<u8>, u32),
    // closes, with a buffer of so many bytes
    Close(u32),
    // asks the three questions, for a piece of that length
    Ask(usize),
}

impl FromText for Act {
    fn from_text(heap: Global, text: &[u8]) -> Result<Act, Flaw> {
        let words = parts(heap, text, b':')?;
        match words.as_slice() {
            [kind, piece, space] if same(kind, b"F") => {
                Ok(Act::Feed(bytes_of(heap, piece)?, number_of(space)?))
            }
            [kind, space] if same(kind, b"C") => Ok(Act::Close(number_of(space)?)),
            [kind, len] if same(kind, b"Q") => Ok(Act::Ask(number_of(len)?)),
            _ => Err(Flaw::NotListed),
        }
    }
}

// What a call on a run answers, with the buffer that it wrote to.
fn fed(run: &mut Run<DecryptorState>, piece: &[u8], mut out: Vec<u8>) -> Result<Step, CallError> {
    let answer = run.feed(piece, out.as_mut_slice());
    let (_, out) = handed_out(answer, out)?;
    Ok(Step::Fed(out))
}

fn closed(run: &mut Run<DecryptorState>, mut out: Vec<u8>) -> Result<Step, CallError> {
    let answer = run.close(out.as_mut_slice());
    let (output, out) = handed_out(answer, out)?;
    Ok(Step::Closed(output.mark, out))
}

impl Act {
    // Calls the run.
    pub(crate) fn on(self, heap: Global, run: &mut Run<DecryptorState>) -> Result<Step, Fault> {
        let answer = match self {
            Act::Feed(piece, space) => {
                let out = vec![in heap; BUFFER_FILL; space as usize]?;
                fed(run, piece.as_slice(), out)
            }
            Act::Close(space) => closed(run, vec![in heap; BUFFER_FILL; space as usize]?),
            Act::Ask(n) => Ok(Step::Asked(
                run.close_len(),
                run.feed_len(n),
                run.close_len_after(n),
            )),
        };
        Ok(answer.unwrap_or_else(Step::Failed))
    }
}
