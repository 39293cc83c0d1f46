// Series: which method texts a box knows.

ghost use Rattle.std.specs.Prelude.{◌≡◌, Option};
ghost use Rattle.byte_strings.specs.Bytes.{Bytes};
ghost use Rattle.filters.specs.declared.tag.Tag.{Tag};
ghost use Rattle.filters.specs.Tag.{standard_tag};
ghost use Rattle.filters.specs.Series.{Named, first_tag};
ghost use Rattle.std.proofs.Common.{rules};

use crate::tag::Tag;

// A series maps method texts to tags. It knows a text for which it answers a tag.
pub trait Series {
    ghost meaning: { Self → Bytes → Option Tag };

    fn tag(&self, text: &[u8]) -> Option<Tag>
        ensures { result ≡ meaning self.now text.now };

    // no tag, or the one that the text has by the standard
    ghost named: { (s : Self) → Named (meaning s) };
}

// The first series: no encryption and RC4.
#[derive(Clone, Copy)]
pub struct Series1;

impl Series for Series1 {
    ghost meaning = { λ _ t. first_tag t };

    ghost named = { Prim.search rules };

    fn tag(&self, text: &[u8]) -> Option<Tag> {
        let tag = Tag::from_name(text)?;
        match tag {
            Tag::None | Tag::V2 => Some(tag),
            Tag::AESV2 | Tag::AESV3 => None,
        }
    }
}

// The second series: every text that has a tag.
#[derive(Clone, Copy)]
pub struct Series2;

impl Series for Series2 {
    ghost meaning = { λ _ t. standard_tag t };

    ghost named = { Prim.search rules };

    fn tag(&self, text: &[u8]) -> Option<Tag> {
        Tag::from_name(text)
    }
}
