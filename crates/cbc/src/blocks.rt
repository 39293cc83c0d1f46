// Blocks of 16 bytes: their sum, and their places in a buffer.
ghost use Rattle.std.specs.Prelude.{◌≡◌, ◌+◌, ◌≤◌, ◌++◌, length, take, drop};
ghost use Rattle.cbc.specs.Blocks.{xor_blocks};

use std::array;

pub(crate) fn xor_blocks(a: &[u8; 16], b: &[u8; 16]) -> [u8; 16]
    ensures { result ≡ xor_blocks a.now b.now }
{
    array::from_fn(|i| a[i] ^ b[i])
}

// Writes bytes at a place.
pub(crate) fn put(out: &mut [u8], at: usize, bytes: &[u8])
    requires { at + length bytes.now ≤ length out.old }
    ensures { out.new ≡ take at out.old ++ (bytes.now ++ drop (at + length bytes.now) out.old) }
{
    out[at..at + bytes.len()].copy_from_slice(bytes);
}
