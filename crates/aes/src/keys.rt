// Key expansion, and the schedule of the equivalent inverse cipher.
ghost use Rattle.std.specs.Prelude.{◌≡◌, ℕ, ◌-◌, ◌*◌, ◌<◌, ◌≤◌, [], length, slice_index, slice_index_or};
ghost use Rattle.aes.specs.State.{inv_mix_column};
ghost use Rattle.aes.specs.Sbox.{sbox};
ghost use Rattle.aes.specs.Keys.{power_of_x, word, mask, next_word, extended, key_words, Words, inverse_schedule};

use crate::field::inv_mix_column;
use crate::sbox::sub_byte;

const RCON: [u8; 10] = [0x01, 0x02, 0x04, 0x08, 0x10, 0x20, 0x40, 0x80, 0x1b, 0x36];

fn round_constant(n: usize) -> u8
    requires { n < 10 }
    ensures { result ≡ power_of_x n }
{
    RCON[n]
}

// SubWord.
fn sub_word(w: &[u8; 4]) -> [u8; 4]
    ensures { result ≡ word (λ j. sbox (slice_index w.now j)) }
{
    w.map(sub_byte)
}

// What is added to word i - nk, from word i - 1.
// Stays in four contracts, here and below, that nk is not 0: it is told together with how nk bounds i and N.
fn mask(before: &[u8; 4], nk: usize, i: usize) -> [u8; 4]
    requires { (0 < nk) × ((nk ≤ i) × (i < 11 * nk)) }
    ensures { result ≡ word (mask nk i before.now) }
{
    if i % nk == 0 {
        let [a, b, c, d] = sub_word(before);
        [b ^ round_constant(i / nk - 1), c, d, a]
    } else if nk > 6 && i % nk == 4 {
        sub_word(before)
    } else {
        *before
    }
}

fn next_word(w: &[[u8; 4]], nk: usize, i: usize) -> [u8; 4]
    requires { (0 < nk) × ((nk ≤ i) × ((i < 11 * nk) × (i < length w.now))) }
    ensures { result ≡ next_word nk i w.now }
{
    let [a, b, c, d] = w[i - nk];
    let [e, f, g, h] = mask(&w[i - 1], nk, i);
    [a ^ e, b ^ f, c ^ g, d ^ h]
}

// The schedule of N words of a key of nk words; there are round constants for 11 nk words.
fn expanded<const N: usize>(key: &[u8], nk: usize) -> [[u8; 4]; N]
    requires { (length key.now ≡ nk * 4) × ((0 < nk) × ((nk ≤ N) × (N ≤ 11 * nk))) }
    ensures { result ≡ extended nk (N - nk) (key_words nk key.now) }
{
    let mut w = [[0; 4]; N];
    let (key_words, _) = key.as_chunks();
    w[..nk].copy_from_slice(key_words);
    // Stays a loop over the index: each word is made of words before it.
    for i in nk..N {
        w[i] = next_word(&w, nk, i);
    }
    w
}

// Takes each word through InvMixColumns.
fn inv_mix_words(words: &mut [[u8; 4]])
    ensures { (k : ℕ) → k < length words.old → slice_index_or words.new k [] ≡ inv_mix_column (slice_index_or words.old k []) }
{
    for word in words.iter_mut() {
        *word = inv_mix_column(word);
    }
}

// The inverse schedule of w: the first and the last round key stay.
fn inverted<const N: usize>(w: &[[u8; 4]; N]) -> [[u8; 4]; N]
    requires { 8 ≤ N }
    ensures { result ≡ inverse_schedule w.now }
{
    let mut out = *w;
    let words = &mut out[..];
    inv_mix_words(&mut words[4..N - 4]);
    out
}

// The schedule of a key, for the cipher and for its inverse.
#[derive(Drop)]
pub(crate) struct Schedule<const N: usize> {
    pub(crate) words: [[u8; 4]; N],
    pub(crate) inverse: [[u8; 4]; N],
    ghost bytes: { Words words },
    ghost inverted: { inverse ≡ inverse_schedule words },
}

impl<const N: usize> Schedule<N> {
    // The schedule of a key of nk words.
    pub(crate) fn new(key: &[u8], nk: usize) -> Schedule<N>
        requires { (length key.now ≡ nk * 4) × ((0 < nk) × ((nk ≤ N) × ((8 ≤ N) × (N ≤ 11 * nk)))) }
        ensures { result.words ≡ extended nk (N - nk) (key_words nk key.now) }
    {
        let words = expanded::<N>(key, nk);
        let inverse = inverted(&words);
        Schedule { words, inverse }
    }
}
