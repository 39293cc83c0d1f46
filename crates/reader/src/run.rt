// A restoring in pieces: a run is open until a closing is accepted, and closed from then on.
ghost use Rattle.std.specs.Prelude.{◌≡◌};
ghost use Rattle.methods.specs.Running.{told};
ghost use Rattle.reader.specs.Run.{standing, asked, Fed, Shut, Called, Kept};

use crate::output::{Mark, Output};
use crate::space::check_space;
use methods::running::Running;
use opening::refusal::Refusal;

#[derive(Drop)]
pub struct Run<S> {
    // none once a closing is accepted
    pub(crate) state: Option<S>,
    pub(crate) mark: Mark,
}

// What a run is called for.
#[derive(Clone, Copy)]
enum Event<'a> {
    Feed(&'a [u8]),
    Close,
}

impl<S: Running> Run<S> {
    // The length that feeding a piece of length `n` would hand out; none on a closed run, or above the largest `usize`.
    pub fn feed_len(&self, n: usize) -> Option<usize>
        ensures { result ≡ asked (standing S.Running.means self.now) (λ q. told (q.hands n)) }
    {
        self.state.as_ref()?.feed_len(n)
    }

    // The space that closing now asks for; none as above.
    pub fn close_len(&self) -> Option<usize>
        ensures { result ≡ asked (standing S.Running.means self.now) (λ q. told q.closing) }
    {
        self.state.as_ref()?.close_len()
    }

    // The space that closing will ask for once a piece of length `n` is fed; none as above.
    pub fn close_len_after(&self, n: usize) -> Option<usize>
        ensures { result ≡ asked (standing S.Running.means self.now) (λ q. told (q.later n)) }
    {
        self.state.as_ref()?.close_len_after(n)
    }

    // Takes a piece in, hands out bytes into the front of `out`, and answers their number.
    // Stays in three contracts: `Kept` is about the run before and after a call, so no value carries it.
    pub fn feed(&mut self, piece: &[u8], out: &mut [u8]) -> Result<usize, Refusal>
        ensures fed { Fed (standing S.Running.means self.old) piece.now out.old result (standing S.Running.means self.new) out.new }
        ensures kept { Kept self.old result self.new }
    {
        self.call(Event::Feed(piece), out)
            .map(|output| output.count)
    }

    // Hands out the rest. The run is closed from then on, unless this is refused.
    pub fn close(&mut self, out: &mut [u8]) -> Result<Output, Refusal>
        ensures shut { Shut (standing S.Running.means self.old) out.old result (standing S.Running.means self.new) out.new }
        ensures kept { Kept self.old result self.new }
    {
        self.call(Event::Close, out)
    }

    // What happens depends on the state and the event together.
    fn call(&mut self, event: Event<'_>, out: &mut [u8]) -> Result<Output, Refusal>
        ensures called { Called event.entry (standing S.Running.means self.old) out.old result (standing S.Running.means self.new) out.new }
        ensures kept { Kept self.old result self.new }
    {
        let mark = self.mark;
        match (&mut self.state, event) {
            (None, _) => Err(Refusal::Closed),
            (Some(s), Event::Feed(piece)) => {
                check_space(s.feed_len(piece.len()), out.len())?;
                let count = s.feed(piece, out);
                Ok(Output { mark, count })
            }
            (Some(s), Event::Close) => {
                check_space(s.close_len(), out.len())?;
                let count = s.close(out)?;
                self.state = None;
                Ok(Output { mark, count })
            }
        }
    }
}
