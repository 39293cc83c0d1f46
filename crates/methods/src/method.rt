// What every crypt method answers.
ghost use Rattle.std.specs.Prelude.{◌≡◌, ◌≤◌, true, length};
ghost use Rattle.methods.specs.Refusal.{Gives};
ghost use Rattle.methods.specs.Running.{space, told};
ghost use Rattle.methods.specs.Method.{Scheme, Lawful, protecting, restoring, Starts};

use crate::key_kind::KeyKind;
use crate::refusal::MethodRefusal;
use crate::running::Running;

// A way to protect data under a key and to restore it.
pub trait CryptMethod {
    type State: Running;

    // what the method is
    ghost scheme: { Self → Scheme };

    // The key that it takes.
    fn takes(&self) -> KeyKind
        ensures { result ≡ (scheme self.now).takes };

    // Whether it admits a key of this length.
    fn admits(&self, key_len: usize) -> bool
        ensures { result ≡ (scheme self.now).admits key_len };

    // The length that protecting `n` bytes stores; none above the largest `usize`.
    fn stored_len(&self, n: usize) -> Option<usize>
        ensures { result ≡ told ((scheme self.now).size n) };

    // Stores the protected data at the front of `out`, and answers its length.
    // Stays four parameters, here and in each impl: a struct of them would be made and taken apart at every call.
    fn protect(
        &self,
        key: &[u8],
        vector: &[u8; 16],
        data: &[u8],
        out: &mut [u8],
    ) -> Result<usize, MethodRefusal>
        requires { (scheme self.now).admits (length key.now) ≡ true → (scheme self.now).size (length «data».now) ≤ length out.old }
        ensures { Gives (protecting (scheme self.now) key.now vector.now «data».now) out.old result out.new };

    // Restores stored bytes whole into the front of `out`, and answers the length of what comes back.
    fn restore(&self, key: &[u8], bytes: &[u8], out: &mut [u8]) -> Result<usize, MethodRefusal>
        requires { (scheme self.now).admits (length key.now) ≡ true → space ((scheme self.now).restoring key.now) (length bytes.now) ≤ length out.old }
        ensures { Gives (restoring (scheme self.now) key.now bytes.now) out.old result out.new };

    // A restoring under the key, before its first byte.
    fn start(&self, key: &[u8]) -> Result<Self::State, MethodRefusal>
        ensures { Starts Self.State.Running.means (scheme self.now) key.now result };

    ghost lawful: { (m : Self) → Lawful (scheme m) };
}
