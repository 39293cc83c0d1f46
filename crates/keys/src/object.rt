// The keys of objects: Algorithm 1.
ghost use Rattle.std.specs.Prelude.{◌≡◌, ◌+◌, min, ◌++◌, length, take};
ghost use Rattle.md5_digest.specs.Md5.{md5 as md5_of};
ghost use Rattle.keys.specs.Key.{key_of};
ghost use Rattle.keys.specs.Object.{object_bytes, salt, object_key};

use crate::key::Key;
use crate::size::KeySize;
use md5_digest::Md5;

// What is appended to the file key.
// Stays two numbers, here and below: a type of the two is the reader's, which is above, and here they are only taken apart.
fn object_bytes(object: i32, generation: i32) -> [u8; 5]
    ensures { result ≡ object_bytes object generation }
{
    let [o0, o1, o2, _] = object.to_le_bytes();
    let [g0, g1, _, _] = generation.to_le_bytes();
    [o0, o1, o2, g0, g1]
}

// The digest of the file key, the object's bytes and the salt, if there is one.
fn digest(key: &[u8], appended: &[u8; 5], salted: bool) -> [u8; 16]
    ensures { result ≡ md5_of (key.now ++ (appended.now ++ salt salted)) }
{
    let mut m = Md5::new();
    m.update(key);
    m.update(appended);
    if salted {
        m.update(b"sAlT");
    }
    m.finish()
}

// The digest whose first bytes are the key.
fn key_digest(key: &[u8], object: i32, generation: i32, salted: bool) -> [u8; 16]
    ensures { take (min 16 (length key.now + 5)) result ≡ object_key key.now object generation salted }
{
    digest(key, &object_bytes(object, generation), salted)
}

// The key of an object, from the file key: five bytes longer, and 16 at most.
// Stays a bool: the one question is whether the salt is appended.
pub fn object_key(key: &[u8], object: i32, generation: i32, salted: bool) -> Key
    ensures { key_of result ≡ object_key key.now object generation salted }
{
    let n = (key.len() + 5).min(16);
    Key {
        bytes: key_digest(key, object, generation, salted),
        size: KeySize { n },
    }
}
