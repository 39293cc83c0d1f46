// A chained restoring under way: the cipher under the key, and how far it has come.
ghost use Rattle.chained.specs.ChainedMethod.{unchaining};
ghost use Rattle.chained.specs.State.{meaning};
ghost use Rattle.std.specs.Prelude.{◌≡◌};
ghost use Rattle.chained.specs.Steps.{arrived};
ghost use Rattle.chained.specs.Advancing.{behind_fits};
ghost use Rattle.chained.specs.TakingIn.{part_few};

use crate::progress::Progress;
use aes::BlockCipher;
use methods::refusal::MethodRefusal;
use methods::running::Running;

#[derive(Drop)]
pub struct ChainedState<C> {
    cipher: C,
    progress: Progress,
}

impl<C: BlockCipher> ChainedState<C> {
    // Before the first byte.
    pub(crate) fn new(cipher: C) -> Self
        ensures { meaning C.BlockCipher.permutation result ≡ unchaining (C.BlockCipher.permutation cipher) }
    {
        ChainedState {
            cipher,
            progress: Progress::new(),
        }
    }
}

impl<C: BlockCipher + Drop> Running for ChainedState<C> {
    ghost means = { meaning C.BlockCipher.permutation };

    ghost fits = { λ s.
        let p = s.progress in
        behind_fits (C.BlockCipher.permutation s.cipher) p.last (arrived p) p.wide (part_few p.filled p.part p.few) };

    fn feed_len(&self, n: usize) -> Option<usize> {
        self.progress
            .complete_after(n)
            .saturating_sub(2)
            .checked_mul(16)
    }

    fn close_len(&self) -> Option<usize> {
        self.close_len_after(0)
    }

    fn close_len_after(&self, n: usize) -> Option<usize> {
        if self.progress.complete_after(n) < 2 {
            Some(0)
        } else {
            Some(16)
        }
    }

    fn feed(&mut self, piece: &[u8], out: &mut [u8]) -> usize {
        self.progress.take_in(&self.cipher, piece, out)
    }

    fn close(&self, out: &mut [u8]) -> Result<usize, MethodRefusal> {
        self.progress.finish(out)
    }
}
