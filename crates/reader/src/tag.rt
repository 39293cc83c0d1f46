// What a file's tag stands for. An unresolved one, which is none, copies the bytes and marks them passed.
ghost use Rattle.std.specs.Prelude.{◌≡◌};
ghost use Rattle.reader.specs.Tag.{method_for, mark_for};

use crate::output::Mark;
use filters::tag::Tag;
use tagged::tag::DecryptorTag;

// The method of a tag.
// Stays a function, and no From: neither type is this crate's, and an unresolved tag has a method, too.
pub(crate) fn method_of(tag: Option<Tag>) -> DecryptorTag
    ensures { result ≡ method_for tag }
{
    match tag {
        Some(Tag::None) | None => DecryptorTag::None,
        Some(Tag::V2) => DecryptorTag::Rc4,
        Some(Tag::AESV2) => DecryptorTag::Aes128,
        Some(Tag::AESV3) => DecryptorTag::Aes256,
    }
}

// How bytes come back under a tag.
// Stays beside `method_of`, and no From: the two say together what a tag stands for.
pub(crate) fn mark_of(tag: Option<Tag>) -> Mark
    ensures { result ≡ mark_for tag }
{
    match tag {
        Some(_) => Mark::Restored,
        None => Mark::Passed,
    }
}
