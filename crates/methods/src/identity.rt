// The method that changes no byte.
ghost use Rattle.std.specs.Prelude.{◌≡◌, ◌≤◌, length};
ghost use Rattle.byte_strings.specs.Bytes.{Writes};
ghost use Rattle.methods.specs.Running.{Fed};
ghost use Rattle.methods.specs.Identity.{copying, copy_scheme};
ghost use Rattle.std.proofs.Common.{rules};
ghost use Rattle.methods.specs.Laws.{copy_lawful};

use crate::key_kind::KeyKind;
use crate::method::CryptMethod;
use crate::refusal::MethodRefusal;
use crate::running::Running;

#[derive(Drop)]
pub struct IdentityState;

// Writes the bytes to the front of `out`.
fn copy_front(bytes: &[u8], out: &mut [u8]) -> usize
    requires { length bytes.now ≤ length out.old }
    ensures count { result ≡ length bytes.now }
    ensures writes { Writes bytes.now out.old out.new }
    ensures fed { Fed copying bytes.now out.old copying result out.new }
{
    let n = bytes.len();
    out[0..n].copy_from_slice(bytes);
    n
}

// Stays beside the one of RC4: what the two share is one-line answers, and a type over both would name each difference.
impl Running for IdentityState {
    ghost means = { λ _. copying };

    ghost fits = { Prim.search rules };

    fn feed_len(&self, n: usize) -> Option<usize> {
        Some(n)
    }

    fn close_len(&self) -> Option<usize> {
        Some(0)
    }

    fn close_len_after(&self, _n: usize) -> Option<usize> {
        self.close_len()
    }

    fn feed(&mut self, piece: &[u8], out: &mut [u8]) -> usize {
        copy_front(piece, out)
    }

    fn close(&self, _out: &mut [u8]) -> Result<usize, MethodRefusal> {
        Ok(0)
    }
}

#[derive(Clone, Copy)]
pub struct Identity;

impl CryptMethod for Identity {
    type State = IdentityState;

    ghost scheme = { λ _. copy_scheme };

    ghost lawful = { λ m. copy_lawful };

    fn takes(&self) -> KeyKind {
        KeyKind::File
    }

    fn admits(&self, _key_len: usize) -> bool {
        true
    }

    fn stored_len(&self, n: usize) -> Option<usize> {
        Some(n)
    }

    fn protect(
        &self,
        _key: &[u8],
        _vector: &[u8; 16],
        data: &[u8],
        out: &mut [u8],
    ) -> Result<usize, MethodRefusal> {
        Ok(copy_front(data, out))
    }

    fn restore(&self, _key: &[u8], bytes: &[u8], out: &mut [u8]) -> Result<usize, MethodRefusal> {
        Ok(copy_front(bytes, out))
    }

    fn start(&self, _key: &[u8]) -> Result<IdentityState, MethodRefusal> {
        Ok(IdentityState)
    }
}
