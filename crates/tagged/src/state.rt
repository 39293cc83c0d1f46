// The state of a restoring by one of the four methods.
ghost use Rattle.tagged.specs.State.{one_means};
ghost use Rattle.std.proofs.Common.{rules};

use methods::refusal::MethodRefusal;
use methods::running::Running;

#[derive(Drop)]
pub enum OneOf<N, R, S, L> {
    None(N),
    Rc4(R),
    Aes128(S),
    Aes256(L),
}

// Stays a match for each answer: the four states are of different types, and no function may hand one out as a dyn.
impl<N: Running, R: Running, S: Running, L: Running> Running for OneOf<N, R, S, L> {
    ghost means = { one_means N.Running.means R.Running.means S.Running.means L.Running.means };

    ghost fits = { Prim.search rules };

    fn feed_len(&self, n: usize) -> Option<usize> {
        match self {
            OneOf::None(s) => s.feed_len(n),
            OneOf::Rc4(s) => s.feed_len(n),
            OneOf::Aes128(s) => s.feed_len(n),
            OneOf::Aes256(s) => s.feed_len(n),
        }
    }

    fn close_len(&self) -> Option<usize> {
        match self {
            OneOf::None(s) => s.close_len(),
            OneOf::Rc4(s) => s.close_len(),
            OneOf::Aes128(s) => s.close_len(),
            OneOf::Aes256(s) => s.close_len(),
        }
    }

    fn close_len_after(&self, n: usize) -> Option<usize> {
        match self {
            OneOf::None(s) => s.close_len_after(n),
            OneOf::Rc4(s) => s.close_len_after(n),
            OneOf::Aes128(s) => s.close_len_after(n),
            OneOf::Aes256(s) => s.close_len_after(n),
        }
    }

    fn feed(&mut self, piece: &[u8], out: &mut [u8]) -> usize {
        match self {
            OneOf::None(s) => s.feed(piece, out),
            OneOf::Rc4(s) => s.feed(piece, out),
            OneOf::Aes128(s) => s.feed(piece, out),
            OneOf::Aes256(s) => s.feed(piece, out),
        }
    }

    fn close(&self, out: &mut [u8]) -> Result<usize, MethodRefusal> {
        match self {
            OneOf::None(s) => s.close(out),
            OneOf::Rc4(s) => s.close(out),
            OneOf::Aes128(s) => s.close(out),
            OneOf::Aes256(s) => s.close(out),
        }
    }
}
