// A call as a line gives it, with the pairs of the paper that it belongs to.
use crate::fault::{Fault, Flaw};
use crate::from_text::FromText;
use crate::key::Key;
use crate::text::{parts, value};
use std::alloc::Global;

// A line, the line whose pairs it takes where it does not have its own, and where its values are stored.
#[derive(Clone, Copy)]
pub(crate) struct Call<'a> {
    pub(crate) heap: Global,
    pub(crate) line: &'a [u8],
    pub(crate) paper: &'a [u8],
}

impl<'a> Call<'a> {
    // The text of a pair.
    pub(crate) fn text(&self, key: Key) -> Option<&'a [u8]> {
        let name = key.name().as_bytes();
        value(self.line, name).or_else(|| value(self.paper, name))
    }

    // The text of a pair that the call needs.
    pub(crate) fn needed_text(&self, key: Key) -> Result<&'a [u8], Fault> {
        self.text(key).ok_or(Fault::Missing(key))
    }

    // The parts of a text that the call needs.
    pub(crate) fn needed_parts(&self, key: Key, at: u8) -> Result<Vec<&'a [u8]>, Fault> {
        parts(self.heap, self.needed_text(key)?, at).map_err(|_| Fault::Bad(key, Flaw::NoMemory))
    }

    // The value of a text, which is that of a pair or a part of it.
    pub(crate) fn read<T: FromText>(&self, key: Key, text: &[u8]) -> Result<T, Fault> {
        T::from_text(self.heap, text).map_err(|flaw| Fault::Bad(key, flaw))
    }

    // The value of a pair, if it is there.
    pub(crate) fn value<T: FromText>(&self, key: Key) -> Result<Option<T>, Fault> {
        match self.text(key) {
            Some(text) => Ok(Some(self.read(key, text)?)),
            None => Ok(None),
        }
    }

    // The value of a pair that the call needs.
    pub(crate) fn needed<T: FromText>(&self, key: Key) -> Result<T, Fault> {
        self.read(key, self.needed_text(key)?)
    }

    // The bytes of a pair, or none at all.
    pub(crate) fn bytes_or_empty(&self, key: Key) -> Result<Vec<u8>, Fault> {
        let bytes = self.value(key)?;
        Ok(bytes.unwrap_or(Vec::new(self.heap)))
    }

    // A buffer full of a byte, as long as a pair says, or of 32 bytes.
    pub(crate) fn area(&self, key: Key, fill: u8) -> Result<Vec<u8>, Fault> {
        let len: u32 = self.value(key)?.unwrap_or(32);
        Ok(vec![in self.heap; fill; len as usize]?)
    }
}
