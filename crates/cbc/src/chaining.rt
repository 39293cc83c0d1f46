// Chaining both ways, whole and block by block.
ghost use Rattle.std.specs.Prelude.{◌≡◌, ◌+◌, ◌-◌, ◌*◌, ◌/◌, ◌^◌, ◌<◌, ◌≤◌, length, None, MatchOption};
ghost use Rattle.byte_strings.specs.Bytes.{Writes};
ghost use Rattle.cbc.specs.Blocks.{xor_blocks};
ghost use Rattle.cbc.specs.Chaining.{padded_length, encrypted, complete_length, decrypted, removed, protected, stored_length, restored, Written, RoundTrip};

use crate::blocks::{put, xor_blocks};
use crate::pad::{padded_block, padding};
use aes::BlockCipher;

// Encrypts one block behind the stored block `before`.
fn protect_block<C: BlockCipher>(cipher: &C, before: &[u8; 16], block: &[u8; 16]) -> [u8; 16]
    ensures { result ≡ (C.permutation cipher.now).forward (xor_blocks block.now before.now) }
{
    cipher.encrypt_block(&xor_blocks(block, before))
}

// Decrypts one stored block behind the stored block `before`.
pub fn restore_block<C: BlockCipher>(cipher: &C, before: &[u8; 16], block: &[u8; 16]) -> [u8; 16]
    ensures { result ≡ xor_blocks ((C.permutation cipher.now).back block.now) before.now }
{
    xor_blocks(&cipher.decrypt_block(block), before)
}

// Writes the data and its padding, chained.
fn chain<C: BlockCipher>(cipher: &C, data: &[u8], iv: &[u8; 16], out: &mut [u8])
    requires { padded_length (length «data».now) ≤ length out.old }
    ensures long { length (encrypted (C.permutation cipher.now) iv.now «data».now) ≡ padded_length (length «data».now) }
    ensures writes { Writes (encrypted (C.permutation cipher.now) iv.now «data».now) out.old out.new }
{
    let (blocks, rest) = data.as_chunks::<16>();
    let mut before = *iv;
    // Stays a write by place, here and below: of what `as_chunks_mut`, or `iter_mut` under `zip`, wrote no proof was found.
    for (n, block) in blocks.iter().enumerate() {
        before = protect_block(cipher, &before, block);
        put(out, n * 16, &before);
    }
    let last = protect_block(cipher, &before, &padded_block(rest));
    put(out, blocks.len() * 16, &last);
}

// How many bytes of the last block go.
fn removed_from(block: &[u8; 16], unpad: bool) -> usize
    ensures { result ≡ removed unpad block.now }
{
    if unpad { padding(block) } else { 0 }
}

// Writes the complete blocks of `data`, unchained, without what goes of the last one.
fn unchain<C: BlockCipher>(
    cipher: &C,
    data: &[u8],
    iv: &[u8; 16],
    unpad: bool,
    out: &mut [u8],
) -> usize
    requires { complete_length (length «data».now) ≤ length out.old }
    ensures count { result ≡ length (decrypted (C.permutation cipher.now) unpad iv.now «data».now) }
    ensures writes { Writes (decrypted (C.permutation cipher.now) unpad iv.now «data».now) out.old out.new }
{
    let (blocks, _) = data.as_chunks::<16>();
    let Some((last, front)) = blocks.split_last() else {
        return 0;
    };
    let mut before = *iv;
    for (n, block) in front.iter().enumerate() {
        let plain = restore_block(cipher, &before, block);
        put(out, n * 16, &plain);
        before = *block;
    }
    let plain = restore_block(cipher, &before, last);
    let kept = 16 - removed_from(&plain, unpad);
    let at = front.len() * 16;
    put(out, at, &plain[..kept]);
    at + kept
}

// Writes what protecting the data stores.
fn store<C: BlockCipher>(cipher: &C, vector: &[u8; 16], data: &[u8], out: &mut [u8])
    requires { stored_length (length «data».now) ≤ length out.old }
    ensures writes { Writes (protected (C.permutation cipher.now) vector.now «data».now) out.old out.new }
    ensures law { RoundTrip (C.permutation cipher.now) vector.now «data».now }
{
    put(out, 0, vector);
    chain(cipher, data, vector, &mut out[16..]);
}

// Writes the data with its padding, chained behind the start vector `iv`, which is not written.
// Stays four parameters, here and below: they are the ported functions' own.
pub fn encrypt_cbc<C: BlockCipher>(
    cipher: &C,
    data: &[u8],
    iv: &[u8; 16],
    out: &mut [u8],
) -> Option<usize>
    ensures { Written (padded_length (length «data».now)) (encrypted (C.permutation cipher.now) iv.now «data».now) result out.old out.new }
{
    let blocks = data.len() / 16 + 1;
    if out.len() / 16 < blocks {
        return None;
    }
    chain(cipher, data, iv, out);
    Some(blocks * 16)
}

// Writes the complete blocks of `data`, unchained behind the start vector `iv`, and with `unpad` without their padding.
// Stays a flag: it is the ported function's own parameter, and an enum of yes and no would say no more.
pub fn decrypt_cbc<C: BlockCipher>(
    cipher: &C,
    data: &[u8],
    iv: &[u8; 16],
    unpad: bool,
    out: &mut [u8],
) -> Option<usize>
    ensures { Written (complete_length (length «data».now)) (decrypted (C.permutation cipher.now) unpad iv.now «data».now) result out.old out.new }
{
    if out.len() / 16 < data.len() / 16 {
        return None;
    }
    Some(unchain(cipher, data, iv, unpad, out))
}

// How many bytes protecting n bytes stores; none where that is no usize.
pub fn stored_len(n: usize) -> Option<usize>
    ensures { MatchOption result (2 ^ 64 ≤ stored_length n) (λ m. m ≡ stored_length n) }
{
    (n / 16 + 2).checked_mul(16)
}

// Writes the start vector, then the data with its padding, chained behind it.
pub fn protect<C: BlockCipher>(
    cipher: &C,
    vector: &[u8; 16],
    data: &[u8],
    out: &mut [u8],
) -> Option<usize>
    ensures answer { Written (stored_length (length «data».now)) (protected (C.permutation cipher.now) vector.now «data».now) result out.old out.new }
    ensures law { MatchOption result (length out.old < stored_length (length «data».now)) (λ _. RoundTrip (C.permutation cipher.now) vector.now «data».now) }
{
    let blocks = data.len() / 16 + 2;
    if out.len() / 16 < blocks {
        return None;
    }
    store(cipher, vector, data, out);
    Some(blocks * 16)
}

// Writes what was protected: the complete blocks behind the start vector, unchained and without their padding. None without a start vector.
#[tactic(auto, using(crate::proofs::Decrypting::restored_written))]
pub fn restore<C: BlockCipher>(cipher: &C, stored: &[u8], out: &mut [u8]) -> Option<usize>
    ensures short { length stored.now < 16 → (result ≡ None) × (out.new ≡ out.old) }
    ensures whole { 16 ≤ length stored.now → Written (complete_length (length stored.now - 16)) (restored (C.permutation cipher.now) stored.now) result out.old out.new }
{
    let (vector, behind) = stored.split_first_chunk::<16>()?;
    decrypt_cbc(cipher, behind, vector, true, out)
}
