// The four built-in methods by their tags.
ghost use Rattle.std.specs.Prelude.{◌≡◌};
ghost use Rattle.methods.specs.declared.key_kind.KeyKind.TheVariants.{Salted, File};
ghost use Rattle.tagged.specs.Tag.{tag_scheme};
ghost use Rattle.tagged.specs.Lawful.{tag_lawful};

use crate::state::OneOf;
use aes::{Aes128, Aes256};
use chained::chained_method::Chained;
use chained::state::ChainedState;
use methods::identity::{Identity, IdentityState};
use methods::key_kind::KeyKind;
use methods::method::CryptMethod;
use methods::rc4_method::{Rc4Method, Rc4State};
use methods::refusal::MethodRefusal;

#[derive(Clone, Copy)]
pub enum DecryptorTag {
    // no encryption: the bytes are copied
    None,
    // RC4 under the object key
    Rc4,
    // chained AES-128 under the salted object key
    Aes128,
    // chained AES-256 under the file key
    Aes256,
}

pub type DecryptorState = OneOf<
    IdentityState,
    Rc4State,
    ChainedState<Aes128>,
    ChainedState<Aes256>,
>;

// Stays beside the one for AES-256: each names a method that six answers ask for, by one call of a generic function.
fn aes128() -> Chained<Aes128>
    ensures { result.kind ≡ Salted }
{
    Chained::<Aes128>::new(KeyKind::Salted)
}

fn aes256() -> Chained<Aes256>
    ensures { result.kind ≡ File }
{
    Chained::<Aes256>::new(KeyKind::File)
}

// Stays a match for each answer: the four methods start states of different types, so no dyn can stand for them.
impl CryptMethod for DecryptorTag {
    type State = DecryptorState;

    ghost scheme = { tag_scheme };

    ghost lawful = { λ t. tag_lawful t };

    fn takes(&self) -> KeyKind {
        match self {
            DecryptorTag::None => Identity.takes(),
            DecryptorTag::Rc4 => Rc4Method.takes(),
            DecryptorTag::Aes128 => aes128().takes(),
            DecryptorTag::Aes256 => aes256().takes(),
        }
    }

    fn admits(&self, key_len: usize) -> bool {
        match self {
            DecryptorTag::None => Identity.admits(key_len),
            DecryptorTag::Rc4 => Rc4Method.admits(key_len),
            DecryptorTag::Aes128 => aes128().admits(key_len),
            DecryptorTag::Aes256 => aes256().admits(key_len),
        }
    }

    fn stored_len(&self, n: usize) -> Option<usize> {
        match self {
            DecryptorTag::None => Identity.stored_len(n),
            DecryptorTag::Rc4 => Rc4Method.stored_len(n),
            DecryptorTag::Aes128 => aes128().stored_len(n),
            DecryptorTag::Aes256 => aes256().stored_len(n),
        }
    }

    fn protect(
        &self,
        key: &[u8],
        vector: &[u8; 16],
        data: &[u8],
        out: &mut [u8],
    ) -> Result<usize, MethodRefusal> {
        match self {
            DecryptorTag::None => Identity.protect(key, vector, data, out),
            DecryptorTag::Rc4 => Rc4Method.protect(key, vector, data, out),
            DecryptorTag::Aes128 => aes128().protect(key, vector, data, out),
            DecryptorTag::Aes256 => aes256().protect(key, vector, data, out),
        }
    }

    fn restore(&self, key: &[u8], bytes: &[u8], out: &mut [u8]) -> Result<usize, MethodRefusal> {
        match self {
            DecryptorTag::None => Identity.restore(key, bytes, out),
            DecryptorTag::Rc4 => Rc4Method.restore(key, bytes, out),
            DecryptorTag::Aes128 => aes128().restore(key, bytes, out),
            DecryptorTag::Aes256 => aes256().restore(key, bytes, out),
        }
    }

    fn start(&self, key: &[u8]) -> Result<DecryptorState, MethodRefusal> {
        match self {
            DecryptorTag::None => Ok(OneOf::None(Identity.start(key)?)),
            DecryptorTag::Rc4 => Ok(OneOf::Rc4(Rc4Method.start(key)?)),
            DecryptorTag::Aes128 => Ok(OneOf::Aes128(aes128().start(key)?)),
            DecryptorTag::Aes256 => Ok(OneOf::Aes256(aes256().start(key)?)),
        }
    }
}
