// The values that the text of a pair, or a part of it, stands for.
use crate::fault::Flaw;
use crate::text::{bytes_of, named, number_of, parts, signed_of};
use filters::table::{FilterEntry, Span};
use opening::file::Target;
use std::alloc::Global;
use tagged::tag::DecryptorTag;

pub(crate) trait FromText: Drop + Sized {
    fn from_text(heap: Global, text: &[u8]) -> Result<Self, Flaw>;
}

// Stays an impl for each number: one for all `T: TryFrom<u64>` would overlap with those of other types.
impl FromText for u8 {
    fn from_text(_heap: Global, text: &[u8]) -> Result<u8, Flaw> {
        number_of(text)
    }
}

impl FromText for u16 {
    fn from_text(_heap: Global, text: &[u8]) -> Result<u16, Flaw> {
        number_of(text)
    }
}

impl FromText for u32 {
    fn from_text(_heap: Global, text: &[u8]) -> Result<u32, Flaw> {
        number_of(text)
    }
}

impl FromText for usize {
    fn from_text(_heap: Global, text: &[u8]) -> Result<usize, Flaw> {
        number_of(text)
    }
}

impl FromText for i32 {
    fn from_text(_heap: Global, text: &[u8]) -> Result<i32, Flaw> {
        signed_of(text)
    }
}

impl FromText for i64 {
    fn from_text(_heap: Global, text: &[u8]) -> Result<i64, Flaw> {
        signed_of(text)
    }
}

// 0 is no, and 1 is yes.
impl FromText for bool {
    fn from_text(_heap: Global, text: &[u8]) -> Result<bool, Flaw> {
        match number_of::<u64>(text)? {
            0 => Ok(false),
            1 => Ok(true),
            _ => Err(Flaw::TooLarge),
        }
    }
}

// 0 is a string, and 1 a stream.
impl FromText for Target {
    fn from_text(heap: Global, text: &[u8]) -> Result<Target, Flaw> {
        match bool::from_text(heap, text)? {
            false => Ok(Target::String),
            true => Ok(Target::Stream),
        }
    }
}

impl FromText for Vec<u8> {
    fn from_text(heap: Global, text: &[u8]) -> Result<Vec<u8>, Flaw> {
        bytes_of(heap, text)
    }
}

impl FromText for [u8; 16] {
    fn from_text(heap: Global, text: &[u8]) -> Result<[u8; 16], Flaw> {
        let bytes = bytes_of(heap, text)?;
        <[u8; 16]>::try_from(bytes.as_slice()).map_err(|_| Flaw::OtherLength)
    }
}

// The name of each method that can be handed in.
const METHODS: [(&str, DecryptorTag); 4] = [
    ("None", DecryptorTag::None),
    ("V2", DecryptorTag::Rc4),
    ("AESV2", DecryptorTag::Aes128),
    ("AESV3", DecryptorTag::Aes256),
];

// A method by its name.
impl FromText for DecryptorTag {
    fn from_text(_heap: Global, text: &[u8]) -> Result<DecryptorTag, Flaw> {
        named(&METHODS, text).ok_or(Flaw::NotListed)
    }
}

// An entry of the filter table: offset and length of its name, and then of its method text.
impl FromText for FilterEntry {
    fn from_text(heap: Global, text: &[u8]) -> Result<FilterEntry, Flaw> {
        let numbers = parts(heap, text, b':')?;
        let [name_at, name_len, method_at, method_len] = numbers.as_slice() else {
            return Err(Flaw::NotListed);
        };
        Ok(FilterEntry {
            name: Span {
                offset: number_of(name_at)?,
                len: number_of(name_len)?,
            },
            method: Span {
                offset: number_of(method_at)?,
                len: number_of(method_len)?,
            },
        })
    }
}
