// Keys of 1 to 16 bytes.
ghost use Rattle.std.specs.Prelude.{◌≡◌, ◌-◌, ◌≤◌, ◌++◌, length};
ghost use Rattle.byte_strings.specs.Bytes.{zeros};
ghost use Rattle.keys.specs.Key.{key_of};

use crate::size::KeySize;

// A key of 1 to 16 bytes: the first of `bytes`, as many as `size` says.
// Stays an array with a size beside it: nothing is allocated.
#[derive(Clone, Copy)]
pub struct Key {
    pub(crate) bytes: [u8; 16],
    pub(crate) size: KeySize,
}

impl Key {
    // The bytes of the key.
    // Stays in three contracts, with those of a size and of a file's key: each is a promise to its own callers.
    pub fn as_bytes(&self) -> &[u8]
        ensures value { result.now ≡ key_of self.now }
        ensures some { 1 ≤ length result.now }
        ensures most { length result.now ≤ 16 }
    {
        let n = self.size.n;
        &self.bytes[0..n]
    }

    // The key, filled with zeros to 16 bytes.
    pub fn filled(&self) -> Key
        ensures { key_of result ≡ key_of self.now ++ zeros (16 - self.now.size.n) }
    {
        Key {
            bytes: zero_filled(self.as_bytes()),
            size: KeySize { n: 16 },
        }
    }
}

// The bytes, and zeros behind them.
pub(crate) fn zero_filled<const N: usize>(front: &[u8]) -> [u8; N]
    requires { length front.now ≤ N }
    ensures { result ≡ front.now ++ zeros (N - length front.now) }
{
    let mut bytes = [0; N];
    bytes[..front.len()].copy_from_slice(front);
    bytes
}
