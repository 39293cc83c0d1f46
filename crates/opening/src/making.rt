// The file that the checks and a key leave.

ghost use Rattle.std.specs.Prelude.{◌≡◌};
ghost use Rattle.keys.specs.Key.{key_of};
ghost use Rattle.opening.specs.File.{viewed};
ghost use Rattle.opening.specs.Making.{filled, new_file};

use crate::checks::{Head, Version};
use crate::file::File;
use keys::Key;

// Under V 4 the key is filled with zeros to 16 bytes.
fn fill(version: Version, key: &Key) -> Key
    ensures { key_of result ≡ filled version key.now.size.n (key_of key.now) }
{
    match version {
        Version::V1 | Version::V2 => *key,
        Version::V4 => key.filled(),
    }
}

impl File {
    // The file of a key, with what the checks leave.
    pub(crate) fn new(head: Head, key: &Key) -> File
        ensures { viewed result ≡ new_file head key.now.size.n (key_of key.now) }
    {
        File {
            key: fill(head.version, key),
            tags: head.tags,
        }
    }
}
