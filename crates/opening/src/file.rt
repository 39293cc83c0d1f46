// An opened file.

ghost use Rattle.std.specs.Prelude.{◌≡◌, ◌≤◌, length};
ghost use Rattle.opening.specs.File.{viewed, tag_for};

use filters::tag::Tag;
use keys::Key;

// What of a file is protected.
#[derive(Clone, Copy)]
pub enum Target {
    String,
    Stream,
}

// The tag of each target; none where its filter is unresolved.
#[derive(Clone, Copy)]
pub struct Tags {
    pub string: Option<Tag>,
    pub stream: Option<Tag>,
}

// The file key, which by its type has 1 to 16 bytes, and the tags.
#[derive(Clone, Copy)]
pub struct File {
    pub(crate) key: Key,
    pub(crate) tags: Tags,
}

impl File {
    // The file key.
    pub fn key(&self) -> &[u8]
        ensures is { result.now ≡ (viewed self.now).key }
        ensures some { 1 ≤ length result.now }
        ensures most { length result.now ≤ 16 }
    {
        self.key.as_bytes()
    }

    // The tag of a target; none where its filter is unresolved.
    pub fn tag(&self, target: Target) -> Option<Tag>
        ensures { result ≡ tag_for (viewed self.now).tags target }
    {
        match target {
            Target::String => self.tags.string,
            Target::Stream => self.tags.stream,
        }
    }
}
