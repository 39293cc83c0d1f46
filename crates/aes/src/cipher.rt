// The cipher and its inverse under a schedule.
ghost use Rattle.std.specs.Prelude.{◌≡◌, ◌+◌, ◌*◌, ◌<◌};
ghost use Rattle.aes.specs.Cipher.{cipher, inv_cipher};

use crate::direction::{Forward, Inverse};
use crate::keys::Schedule;
use crate::state::{first_round, last_round, round};

impl<const N: usize> Schedule<N> {
    pub(crate) fn encrypt<const ROUNDS: usize>(&self, block: &[u8; 16]) -> [u8; 16]
        requires { (0 < ROUNDS) × (N ≡ ROUNDS * 4 + 4) }
        ensures { result ≡ cipher self.now.words ROUNDS block.now }
    {
        let (keys, _) = self.words.as_chunks();
        let mut state = first_round(&keys[0], block);
        for key in &keys[1..ROUNDS] {
            state = round::<Forward>(key, &state);
        }
        last_round::<Forward>(&keys[ROUNDS], &state)
    }

    // By the equivalent inverse cipher, under the inverse schedule.
    // Stays beside `encrypt`: what is left of the two is another schedule in the other order; the rounds are one function.
    pub(crate) fn decrypt<const ROUNDS: usize>(&self, block: &[u8; 16]) -> [u8; 16]
        requires { (0 < ROUNDS) × (N ≡ ROUNDS * 4 + 4) }
        ensures { result ≡ inv_cipher self.now.words ROUNDS block.now }
    {
        let (keys, _) = self.inverse.as_chunks();
        let mut state = first_round(&keys[ROUNDS], block);
        for key in keys[1..ROUNDS].iter().rev() {
            state = round::<Inverse>(key, &state);
        }
        last_round::<Inverse>(&keys[0], &state)
    }
}
