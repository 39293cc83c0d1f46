// AES (FIPS 197) with keys of 16 and of 32 bytes, fast by tables of words.

#![tactic(auto)]

ghost use Rattle.std.specs.Prelude.{◌≡◌, ◌/◌, length, MatchOption, ◌≢◌};
ghost use Rattle.aes.specs.Cipher.{Sizes, rijndael, aes};
ghost use Rattle.std.proofs.Common.{refl, lit≤};
ghost use Rattle.aes.specs.CipherLaws.{rijndael_invertible};

mod block_cipher;
mod cipher;
mod direction;
mod field;
mod keys;
mod sbox;
mod state;
mod tables;

pub use block_cipher::BlockCipher;
pub use field::inv_mix_column;
use keys::Schedule;
pub use sbox::{inv_sub_byte, sub_byte};

// The sizes of FIPS 197: a key of KEY bytes makes a schedule of WORDS words, for ROUNDS rounds.
pub trait KeySize<const KEY: usize, const WORDS: usize, const ROUNDS: usize> {
    ghost sizes: { Sizes KEY WORDS ROUNDS };
}

// AES under a key of KEY bytes.
#[derive(Drop)]
pub struct Aes<const KEY: usize, const WORDS: usize, const ROUNDS: usize> {
    schedule: Schedule<WORDS>,
    ghost sizes: { Sizes KEY WORDS ROUNDS },
}

// AES with a key of 16 bytes: 10 rounds.
pub type Aes128 = Aes<16, 44, 10>;

impl KeySize<16, 44, 10> for Aes128 {
    ghost sizes = { record { key_bytes = refl; schedule_words = refl; least = lit≤ tt } };
}

// AES with a key of 32 bytes: 14 rounds.
pub type Aes256 = Aes<32, 60, 14>;

impl KeySize<32, 60, 14> for Aes256 {
    ghost sizes = { record { key_bytes = refl; schedule_words = refl; least = lit≤ tt } };
}

impl<const KEY: usize, const WORDS: usize, const ROUNDS: usize> Aes<KEY, WORDS, ROUNDS>
where
    Self: KeySize<KEY, WORDS, ROUNDS>,
{
    pub fn new(key: &[u8; KEY]) -> Self
        ensures { rijndael ROUNDS result.schedule.words ≡ aes (KEY / 4) key.now }
    {
        Aes {
            schedule: Schedule::new(key, KEY / 4),
        }
    }

    // The cipher under a key of KEY bytes; none under any other.
    pub fn from_slice(key: &[u8]) -> Option<Self>
        ensures { MatchOption result (length key.now ≢ KEY) (λ c. (length key.now ≡ KEY) × (rijndael ROUNDS c.schedule.words ≡ aes (KEY / 4) key.now)) }
    {
        Some(Self::new(key.as_array()?))
    }
}

impl<const KEY: usize, const WORDS: usize, const ROUNDS: usize> BlockCipher
    for Aes<KEY, WORDS, ROUNDS> {
    ghost permutation = { λ c. rijndael ROUNDS c.schedule.words };

    ghost invertible = { λ c. rijndael_invertible c.schedule.words c.schedule.bytes ROUNDS };

    fn encrypt_block(&self, block: &[u8; 16]) -> [u8; 16] {
        self.schedule.encrypt::<ROUNDS>(block)
    }

    fn decrypt_block(&self, block: &[u8; 16]) -> [u8; 16] {
        self.schedule.decrypt::<ROUNDS>(block)
    }
}
