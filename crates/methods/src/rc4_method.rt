// RC4 as a crypt method.
ghost use Rattle.std.specs.Prelude.{◌≡◌, ◌≤◌, true, false, length, MatchResult, nat_lt};
ghost use Rattle.byte_strings.specs.Bytes.{Writes};
ghost use Rattle.rc4.specs.Rc4.{stream, keyed};
ghost use Rattle.methods.specs.declared.refusal.MethodRefusal.TheVariants.{KeyLength};
ghost use Rattle.methods.specs.Running.{Fed};
ghost use Rattle.methods.specs.Rc4Method.{streaming, rc4_scheme};
ghost use Rattle.methods.specs.Laws.{stream_fits, rc4_lawful};

use crate::key_kind::KeyKind;
use crate::method::CryptMethod;
use crate::refusal::MethodRefusal;
use crate::running::Running;
use rc4::Rc4;

#[derive(Drop)]
pub struct Rc4State {
    cipher: Rc4,
}

// The cipher under a key of a byte or more.
fn keyed_cipher(key: &[u8]) -> Result<Rc4, MethodRefusal>
    ensures { MatchResult result (λ c. (nat_lt 0 (length key.now) ≡ true) × (c ≡ keyed key.now)) (λ e. (nat_lt 0 (length key.now) ≡ false) × (e ≡ KeyLength)) }
{
    Rc4::new(key).ok_or(MethodRefusal::KeyLength)
}

// Sends the bytes through the cipher to the front of `out`.
fn stream_into(cipher: &mut Rc4, bytes: &[u8], out: &mut [u8]) -> usize
    requires { length bytes.now ≤ length out.old }
    ensures count { result ≡ length (stream cipher.old bytes.now) }
    ensures writes { Writes (stream cipher.old bytes.now) out.old out.new }
    ensures fed { Fed (streaming cipher.old) bytes.now out.old (streaming cipher.new) result out.new }
{
    cipher.decrypt(bytes, out).unwrap()
}

impl Running for Rc4State {
    ghost means = { λ s. streaming s.cipher };

    ghost fits = { λ s. stream_fits s.cipher };

    fn feed_len(&self, n: usize) -> Option<usize> {
        Some(n)
    }

    fn close_len(&self) -> Option<usize> {
        Some(0)
    }

    fn close_len_after(&self, _n: usize) -> Option<usize> {
        self.close_len()
    }

    fn feed(&mut self, piece: &[u8], out: &mut [u8]) -> usize {
        stream_into(&mut self.cipher, piece, out)
    }

    fn close(&self, _out: &mut [u8]) -> Result<usize, MethodRefusal> {
        Ok(0)
    }
}

#[derive(Clone, Copy)]
pub struct Rc4Method;

impl CryptMethod for Rc4Method {
    type State = Rc4State;

    ghost scheme = { λ _. rc4_scheme };

    ghost lawful = { λ m. rc4_lawful };

    fn takes(&self) -> KeyKind {
        KeyKind::Object
    }

    fn admits(&self, key_len: usize) -> bool {
        key_len > 0
    }

    fn stored_len(&self, n: usize) -> Option<usize> {
        Some(n)
    }

    fn protect(
        &self,
        key: &[u8],
        _vector: &[u8; 16],
        data: &[u8],
        out: &mut [u8],
    ) -> Result<usize, MethodRefusal> {
        let mut cipher = keyed_cipher(key)?;
        Ok(stream_into(&mut cipher, data, out))
    }

    fn restore(&self, key: &[u8], bytes: &[u8], out: &mut [u8]) -> Result<usize, MethodRefusal> {
        let mut cipher = keyed_cipher(key)?;
        Ok(stream_into(&mut cipher, bytes, out))
    }

    fn start(&self, key: &[u8]) -> Result<Rc4State, MethodRefusal> {
        let cipher = keyed_cipher(key)?;
        Ok(Rc4State { cipher })
    }
}
