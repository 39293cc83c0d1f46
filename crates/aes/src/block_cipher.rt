// A block cipher under a key: two maps of 16-byte blocks, each undoing the other.
ghost use Rattle.std.specs.Prelude.{◌≡◌};
ghost use Rattle.aes.specs.BlockCipher.{Permutation, Invertible};

pub trait BlockCipher {
    // The two maps under this key.
    ghost permutation: { Self → Permutation };

    fn encrypt_block(&self, block: &[u8; 16]) -> [u8; 16]
        ensures { result ≡ (permutation self.now).forward block.now };

    fn decrypt_block(&self, block: &[u8; 16]) -> [u8; 16]
        ensures { result ≡ (permutation self.now).back block.now };

    ghost invertible: { (c : Self) → Invertible (permutation c) };
}
