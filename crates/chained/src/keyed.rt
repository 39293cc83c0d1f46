// Block ciphers that are made from a key.
ghost use Rattle.std.specs.Prelude.{◌≡◌, ◌/◌, length, MatchOption, ◌≢◌};
ghost use Rattle.byte_strings.specs.Bytes.{Bytes, Octets};
ghost use Rattle.aes.specs.BlockCipher.{Invertible};
ghost use Rattle.chained.specs.Keyed.{Family, aes_family};
ghost use Rattle.aes.proofs.AesLaws.{aes_invertible};

use aes::{Aes, BlockCipher, KeySize};

pub trait KeyedCipher: BlockCipher + Drop + Sized {
    // the cipher under each key
    ghost family: { Family };

    // How many bytes a key has.
    fn key_len() -> usize
        ensures { result ≡ family.size };

    // The cipher under a key of that length; none under any other.
    fn with_key(key: &[u8]) -> Option<Self>
        ensures { MatchOption result (length key.now ≢ family.size) (λ c. (length key.now ≡ family.size) × (Self.BlockCipher.permutation c ≡ family.under key.now)) };

    ghost keyed: { (k : Bytes) → length k ≡ family.size → Octets k → Invertible (family.under k) };
}

impl<const KEY: usize, const WORDS: usize, const ROUNDS: usize> KeyedCipher
    for Aes<KEY, WORDS, ROUNDS>
where
    Self: KeySize<KEY, WORDS, ROUNDS>,
{
    ghost family = { aes_family KEY };

    ghost keyed = { λ k sized octets. aes_invertible (KEY / 4) k octets };

    fn key_len() -> usize {
        KEY
    }

    fn with_key(key: &[u8]) -> Option<Self> {
        Self::from_slice(key)
    }
}
