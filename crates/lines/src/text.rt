// The text of a line: its words and pairs, and the digits in their values.
ghost use Rattle.std.specs.Prelude.{◌≡◌, ◌≤◌, ◌++◌, ◌∷◌, length, vec_len, IfOk, IfSome};
ghost use Rattle.std.specs.Iterator.{at_most};
ghost use Rattle.lines.specs.Text.{hex_digit};

use crate::fault::Flaw;
use byte_strings::same;
use std::alloc::{AllocError, Global};

const QUOTE: u8 = b'"';

// The words of a line, each up to a space outside quotes.
#[derive(Drop)]
pub(crate) struct Words<'a>(pub(crate) &'a [u8]);

impl<'a> Iterator for Words<'a> {
    type Item = &'a [u8];

    ghost remaining = { λ s. at_most (length s.0.now) };

    fn next(&mut self) -> Option<&'a [u8]> {
        let line = self.0;
        if line.is_empty() {
            return None;
        }
        // a loop, since `position` with a closure that keeps `quoted` was slower
        let mut quoted = false;
        for (end, b) in line.iter().enumerate() {
            if *b == QUOTE {
                quoted = !quoted;
            } else if *b == b' ' && !quoted {
                self.0 = &line[end + 1..];
                return Some(&line[..end]);
            }
        }
        self.0 = &[];
        Some(line)
    }
}

// The first word.
pub(crate) fn first_word(line: &[u8]) -> &[u8] {
    Words(line).next().unwrap_or(line)
}

// The value of a word that is a pair of that name.
#[tactic(auto, using(crate::proofs::Pairs::pair_of))]
pub(crate) fn value_of<'a>(word: &'a [u8], name: &[u8]) -> Option<&'a [u8]>
    ensures { IfSome result (λ v. word.now ≡ name.now ++ (61 ∷ v.now)) }
{
    let (front, behind) = word.split_at_checked(name.len())?;
    let (first, value) = behind.split_first()?;
    (*first == b'=' && same(front, name)).then_some(value)
}

// The value of the first pair of that name.
pub(crate) fn value<'a>(line: &'a [u8], name: &[u8]) -> Option<&'a [u8]> {
    Words(line).find_map(|word| value_of(word, name))
}

// The parts of a text that a byte parts.
pub(crate) fn parts<'a>(heap: Global, text: &'a [u8], at: u8) -> Result<Vec<&'a [u8]>, AllocError>
    ensures { IfOk result (λ v. 1 ≤ vec_len v) }
{
    text.split(|b| *b == at).collect(heap)
}

// What a word stands for in a table of words.
pub(crate) fn named<T: Copy>(table: &[(&'static str, T)], word: &[u8]) -> Option<T> {
    let (_, found) = table.iter().find(|(name, _)| same(name.as_bytes(), word))?;
    Some(*found)
}

// The value of a hexadecimal digit.
fn hex_digit(b: u8) -> Option<u8>
    ensures { result ≡ hex_digit b }
{
    match b {
        b'0'..=b'9' => Some(b - b'0'),
        b'a'..=b'f' => Some(b - b'a' + 10),
        _ => None,
    }
}

// The bytes that hexadecimal digits stand for.
fn unhex(heap: Global, text: &[u8]) -> Result<Vec<u8>, Flaw> {
    let (pairs, single) = text.as_chunks::<2>();
    let mut out = Vec::new(heap);
    for [high, low] in pairs {
        let high = hex_digit(*high).ok_or(Flaw::NotHex)?;
        let low = hex_digit(*low).ok_or(Flaw::NotHex)?;
        out.push(high * 16 + low)?;
    }
    // looked at last: where there is no memory for the pairs, that is what is wrong
    if single.is_empty() {
        Ok(out)
    } else {
        Err(Flaw::NotHex)
    }
}

// The bytes of a value: text in quotes, or hexadecimal.
pub(crate) fn bytes_of(heap: Global, text: &[u8]) -> Result<Vec<u8>, Flaw> {
    match text {
        [QUOTE, quoted @ .., QUOTE] => Ok(Vec::from_slice(heap, quoted)?),
        [QUOTE, ..] => Err(Flaw::NoEndQuote),
        _ => unhex(heap, text),
    }
}

// The number that decimal digits stand for.
fn digits(text: &[u8]) -> Result<u64, Flaw> {
    if text.is_empty() {
        return Err(Flaw::NotNumber);
    }
    let mut n: u64 = 0;
    for b in text {
        let digit = char::from(*b).to_digit(10).ok_or(Flaw::NotNumber)?;
        let tens = n.checked_mul(10).ok_or(Flaw::TooLarge)?;
        n = tens.checked_add(u64::from(digit)).ok_or(Flaw::TooLarge)?;
    }
    Ok(n)
}

// A decimal number without sign.
pub(crate) fn number_of<T: TryFrom<u64>>(text: &[u8]) -> Result<T, Flaw>
where
    T::Error: Drop,
{
    T::try_from(digits(text)?).map_err(|_| Flaw::TooLarge)
}

// A decimal number, perhaps negative.
pub(crate) fn signed_of<T: TryFrom<i128>>(text: &[u8]) -> Result<T, Flaw>
where
    T::Error: Drop,
{
    let n = match text {
        [b'-', behind @ ..] => -i128::from(digits(behind)?),
        _ => i128::from(digits(text)?),
    };
    T::try_from(n).map_err(|_| Flaw::TooLarge)
}
