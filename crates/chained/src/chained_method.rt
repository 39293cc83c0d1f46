// Chaining over a block cipher, as a crypt method.
ghost use Rattle.std.specs.Prelude.{◌≡◌, ◌≤◌, true, false, length, MatchResult, ◌==◌};
ghost use Rattle.byte_strings.specs.Bytes.{Writes};
ghost use Rattle.cbc.specs.Chaining.{stored_length, protected};
ghost use Rattle.methods.specs.Refusal.{given, Gives};
ghost use Rattle.methods.specs.Running.{space};
ghost use Rattle.methods.specs.declared.refusal.MethodRefusal.TheVariants.{KeyLength};
ghost use Rattle.chained.specs.ChainedMethod.{recovered, unchaining, chained_scheme};
ghost use Rattle.chained.specs.Laws.{chained_lawful};

use crate::keyed::KeyedCipher;
use crate::state::ChainedState;
use aes::BlockCipher;
use cbc::{protect, restore, stored_len};
use methods::key_kind::KeyKind;
use methods::method::CryptMethod;
use methods::refusal::MethodRefusal;
use std::marker::PhantomData;

// Chaining over the cipher `C`, under the key of a kind.
#[derive(Drop)]
pub struct Chained<C> {
    kind: KeyKind,
    cipher: PhantomData<C>,
}

impl<C: KeyedCipher> Chained<C> {
    pub fn new(kind: KeyKind) -> Self
        ensures { result.kind ≡ kind }
    {
        Chained {
            kind,
            cipher: PhantomData,
        }
    }
}

// The cipher under a key of its length.
fn cipher_under<C: KeyedCipher>(key: &[u8]) -> Result<C, MethodRefusal>
    ensures { MatchResult result (λ c. ((length key.now == C.KeyedCipher.family.size) ≡ true) × (C.BlockCipher.permutation c ≡ C.KeyedCipher.family.under key.now)) (λ e. ((length key.now == C.KeyedCipher.family.size) ≡ false) × (e ≡ KeyLength)) }
{
    C::with_key(key).ok_or(MethodRefusal::KeyLength)
}

// Stores the start vector, and behind it the data, padded and chained.
fn protect_under<C: BlockCipher>(
    cipher: &C,
    vector: &[u8; 16],
    data: &[u8],
    out: &mut [u8],
) -> usize
    requires { stored_length (length «data».now) ≤ length out.old }
    ensures count { result ≡ length (protected (C.BlockCipher.permutation cipher.now) vector.now «data».now) }
    ensures writes { Writes (protected (C.BlockCipher.permutation cipher.now) vector.now «data».now) out.old out.new }
{
    protect(cipher, vector, data, out).unwrap()
}

// Restores everything behind the start vector, the first 16 bytes.
fn restore_under<C: BlockCipher>(
    cipher: &C,
    bytes: &[u8],
    out: &mut [u8],
) -> Result<usize, MethodRefusal>
    requires { space (unchaining (C.BlockCipher.permutation cipher.now)) (length bytes.now) ≤ length out.old }
    ensures { Gives (given (recovered (C.BlockCipher.permutation cipher.now) bytes.now)) out.old result out.new }
{
    restore(cipher, bytes, out).ok_or(MethodRefusal::TooShort)
}

impl<C: KeyedCipher> CryptMethod for Chained<C> {
    type State = ChainedState<C>;

    ghost scheme = { λ m. chained_scheme m.kind C.KeyedCipher.family };

    ghost lawful = { λ m. chained_lawful m.kind C.KeyedCipher.family C.KeyedCipher.keyed };

    fn takes(&self) -> KeyKind {
        self.kind
    }

    fn admits(&self, key_len: usize) -> bool {
        key_len == C::key_len()
    }

    fn stored_len(&self, n: usize) -> Option<usize> {
        stored_len(n)
    }

    fn protect(
        &self,
        key: &[u8],
        vector: &[u8; 16],
        data: &[u8],
        out: &mut [u8],
    ) -> Result<usize, MethodRefusal> {
        let cipher = cipher_under::<C>(key)?;
        Ok(protect_under(&cipher, vector, data, out))
    }

    fn restore(&self, key: &[u8], bytes: &[u8], out: &mut [u8]) -> Result<usize, MethodRefusal> {
        let cipher = cipher_under::<C>(key)?;
        restore_under(&cipher, bytes, out)
    }

    fn start(&self, key: &[u8]) -> Result<ChainedState<C>, MethodRefusal> {
        let cipher = cipher_under::<C>(key)?;
        Ok(ChainedState::new(cipher))
    }
}
