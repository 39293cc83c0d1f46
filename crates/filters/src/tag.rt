// The tags of crypt methods.

ghost use Rattle.std.specs.Prelude.{◌≡◌, Some};
ghost use Rattle.filters.specs.Tag.{standard_tag};
ghost use Rattle.filters.specs.TagText.{tag_text};

use byte_strings::same;
use std::fmt;

// The crypt method that a CFM text names.
#[derive(Clone, Copy, PartialEq, Eq)]
pub enum Tag {
    // no encryption: the texts `None` and `Identity`
    None,
    // RC4 under the object key
    V2,
    // AES-128 with chaining under the salted object key
    AESV2,
    // AES-256 with chaining under the file key
    AESV3,
}

impl Tag {
    // The tag that a method text has by the standard.
    // Stays a chain of comparisons that answers an option: a text without a tag is no failure, and a series answers alike.
    pub fn from_name(name: &[u8]) -> Option<Tag>
        ensures { result ≡ standard_tag name.now }
    {
        if same(name, b"None") || same(name, b"Identity") {
            Some(Tag::None)
        } else if same(name, b"V2") {
            Some(Tag::V2)
        } else if same(name, b"AESV2") {
            Some(Tag::AESV2)
        } else if same(name, b"AESV3") {
            Some(Tag::AESV3)
        } else {
            None
        }
    }
}

// The text that names the tag, `None` for no encryption.
impl fmt::Display for Tag {
    ghost output = { λ t. Some (tag_text t) };

    fn fmt<W: fmt::Write>(&self, f: &mut fmt::Formatter<W>) -> fmt::Result {
        match self {
            Tag::None => write!(f, "None"),
            Tag::V2 => write!(f, "V2"),
            Tag::AESV2 => write!(f, "AESV2"),
            Tag::AESV3 => write!(f, "AESV3"),
        }
    }
}
