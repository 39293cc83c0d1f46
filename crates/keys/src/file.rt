// The file key: Algorithm 2.
ghost use Rattle.std.specs.Prelude.{◌≡◌};
ghost use Rattle.md5_digest.specs.Md5.{md5 as md5_of};
ghost use Rattle.keys.specs.Numbers.{low_bytes_of};
ghost use Rattle.keys.specs.Key.{key_of};
ghost use Rattle.keys.specs.File.{read, hashed, again, turns as turns_of, file_key};

use crate::inputs::{Inputs, Revision};
use crate::key::Key;
use md5_digest::Md5;

// P modulo 2^32.
// Stays a pattern: an `as` may lose nothing, and the low four bytes are what is asked for.
fn permissions(p: i64) -> [u8; 4]
    ensures { result ≡ low_bytes_of 4 p }
{
    let [b0, b1, b2, b3, _, _, _, _] = p.to_le_bytes();
    [b0, b1, b2, b3]
}

// The first digest.
fn first_digest(inputs: &Inputs, padded: &[u8]) -> [u8; 16]
    ensures { result ≡ md5_of (hashed (read inputs.now) padded.now) }
{
    let mut m = Md5::new();
    m.update(padded);
    m.update(inputs.o);
    m.update(&permissions(inputs.p));
    m.update(inputs.id);
    if inputs.revision == Revision::R4 && !inputs.metadata {
        m.update(&[0xFF, 0xFF, 0xFF, 0xFF]);
    }
    m.finish()
}

// How often the digest is digested again.
// Stays a match: the rule goes by the revision.
fn turns(revision: Revision) -> usize
    ensures { result ≡ turns_of revision }
{
    match revision {
        Revision::R2 => 0,
        Revision::R3 | Revision::R4 => 50,
    }
}

// The digest of a key, as a key of the same size.
fn digested(key: Key) -> Key
    ensures bytes { result.bytes ≡ md5_of (key_of key) }
    ensures size { result.size ≡ key.size }
{
    Key {
        bytes: md5_digest::calculate(key.as_bytes()),
        size: key.size,
    }
}

// The key after that many further digests.
fn digested_again(first: Key, turns: usize) -> Key
    ensures bytes { result.bytes ≡ again first.size.n turns first.bytes }
    ensures size { result.size ≡ first.size }
{
    (0..turns).fold(first, |key, _| digested(key))
}

// The key, from the padded password.
#[tactic(auto, unfolding(crate::specs::File::file_key))]
pub fn file_key(inputs: &Inputs, padded: &[u8]) -> Key
    ensures { (key_of result ≡ file_key (read inputs.now) padded.now) × (result.size ≡ inputs.now.size) }
{
    let first = Key {
        bytes: first_digest(inputs, padded),
        size: inputs.size,
    };
    digested_again(first, turns(inputs.revision))
}
