// A restoring under way: it is fed pieces, hands out bytes, and is closed.
ghost use Rattle.std.specs.Prelude.{◌≡◌, ◌≤◌, [], length};
ghost use Rattle.methods.specs.Refusal.{given, Gives};
ghost use Rattle.methods.specs.Running.{Residual, Fits, Fed, told};

use crate::refusal::MethodRefusal;

pub trait Running: Drop {
    // what it still has to do
    ghost means: { Self → Residual };

    // The length that feeding a piece of length `n` hands out; none above the largest `usize`.
    fn feed_len(&self, n: usize) -> Option<usize>
        ensures { result ≡ told ((means self.now).hands n) };

    // A space that closing now fits in.
    fn close_len(&self) -> Option<usize>
        ensures { result ≡ told (means self.now).closing };

    // The closing space once a piece of length `n` is fed.
    fn close_len_after(&self, n: usize) -> Option<usize>
        ensures { result ≡ told ((means self.now).later n) };

    // Takes the piece, hands out bytes into the front of `out`, and answers their number.
    fn feed(&mut self, piece: &[u8], out: &mut [u8]) -> usize
        requires { (means self.old).hands (length piece.now) ≤ length out.old }
        ensures { Fed (means self.old) piece.now out.old (means self.new) result out.new };

    // Hands out what is left. The state stays as it is, so that a refused closing changes nothing.
    fn close(&self, out: &mut [u8]) -> Result<usize, MethodRefusal>
        requires { (means self.now).closing ≤ length out.old }
        ensures { Gives (given ((means self.now).ahead [])) out.old result out.new };

    ghost fits: { (s : Self) → Fits (means s) };
}
