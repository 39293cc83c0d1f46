// The entry U: Algorithms 4, 5 and 6.
ghost use Rattle.std.specs.Prelude.{◌≡◌};
ghost use Rattle.rc4.specs.Rc4.{rc4 as rc4_of};
ghost use Rattle.keys.specs.Key.{key_of};
ghost use Rattle.keys.specs.User.{key_xor, repeated, user_password2, user_password34, user_entry, same_front, agrees, HasLength32, OwnAgrees};

use crate::inputs::Revision;
use crate::key::{Key, zero_filled};
use crate::password::password_padding;
use byte_strings::same;
use md5_digest::Md5;
use rc4::Rc4;

// RC4 under a key from its start.
fn encrypted<const N: usize>(key: &Key, input: &[u8; N]) -> [u8; N]
    ensures { result ≡ rc4_of (key_of key.now) input.now }
{
    let Some(mut rc) = Rc4::new(key.as_bytes()) else {
        unreachable()
    };
    let mut out = [0; N];
    let _ = rc.encrypt(input, &mut out);
    out
}

// The key with each byte XORed with a number.
fn xored(key: &Key, i: u8) -> Key
    ensures { key_of result ≡ key_xor i (key_of key.now) }
{
    Key {
        bytes: key.bytes.map(|byte| byte ^ i),
        size: key.size,
    }
}

// Encrypts once more, under the key XORed with the number of the turn.
fn turn(key: &Key, i: u8, x: &[u8; 16]) -> [u8; 16]
    ensures { result ≡ rc4_of (key_xor i (key_of key.now)) x.now }
{
    encrypted(&xored(key, i), x)
}

// Encrypts under the key, and in 19 turns more.
fn repeat(key: &Key, digest: &[u8; 16]) -> [u8; 16]
    ensures { result ≡ repeated (key_of key.now) 19 digest.now }
{
    let mut x = encrypted(key, digest);
    // Stays a loop over the turn's number, a part of the key: nothing is inferred of a closure that returns an array.
    for i in 1..20 {
        x = turn(key, i, &x);
    }
    x
}

// Algorithm 4.
fn user_password_rev2(key: &Key) -> [u8; 32]
    ensures { result ≡ user_password2 (key_of key.now) }
{
    encrypted(key, &password_padding())
}

// Algorithm 5.
fn user_password_rev34(key: &Key, id: &[u8]) -> [u8; 32]
    ensures { result ≡ user_password34 id.now (key_of key.now) }
{
    let mut m = Md5::new();
    m.update(&password_padding());
    m.update(id);
    zero_filled(&repeat(key, &m.finish()))
}

// The U that the key gives.
// Stays a match, here and below: each revision has its algorithm.
// Stays three parameters, here and below: the other inputs of a file key are not asked for.
pub fn user_entry(revision: Revision, id: &[u8], key: &Key) -> [u8; 32]
    ensures { result ≡ user_entry revision id.now (key_of key.now) }
{
    match revision {
        Revision::R2 => user_password_rev2(key),
        Revision::R3 | Revision::R4 => user_password_rev34(key, id),
    }
}

// Whether the first 16 bytes are the same.
fn same_front(u: &[u8], own: &[u8; 32]) -> bool
    ensures { result ≡ same_front u.now own.now }
{
    u.starts_with(&own[..16])
}

// Whether U is the one that the key gives.
pub fn agrees_with(revision: Revision, id: &[u8], key: &Key, u: &[u8]) -> bool
    ensures { result ≡ agrees revision id.now (key_of key.now) u.now }
{
    match revision {
        Revision::R2 => same(u, &user_password_rev2(key)),
        Revision::R3 | Revision::R4 => same_front(u, &user_password_rev34(key, id)),
    }
}

// U has 32 bytes, and the one that a key gives agrees with it.
pub fn laws()
    ensures long { HasLength32 }
    ensures agree { OwnAgrees }
{}
