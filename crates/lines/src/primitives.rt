// The calls of the primitives: digests, ciphers and chaining.
use crate::call::Call;
use crate::fault::{Fault, LineError};
use crate::key::Key;
use crate::reply::Reply;
use cbc::{decrypt_cbc, encrypt_cbc};
use chained::keyed::KeyedCipher;
use md5_digest::Md5;
use rc4::Rc4;

// The digest of the pieces of `data`.
pub(crate) fn digest(call: &Call) -> Result<Reply, LineError> {
    let mut m = Md5::new();
    for text in call.needed_parts(Key::Data, b',')?.iter() {
        let piece: Vec<u8> = call.read(Key::Data, text)?;
        m.update(piece.as_slice());
    }
    Ok(Reply::Out(Vec::from_slice(call.heap, &m.finish())?))
}

// RC4 under `key`, over the pieces of `data`.
pub(crate) fn stream(call: &Call) -> Result<Reply, LineError> {
    let key: Vec<u8> = call.needed(Key::Key)?;
    let pieces = call.needed_parts(Key::Data, b',')?;
    let Some(mut cipher) = Rc4::new(key.as_slice()) else {
        return Ok(Reply::NoKey);
    };
    let mut out = Vec::new(call.heap);
    for text in pieces.iter() {
        let piece: Vec<u8> = call.read(Key::Data, text)?;
        let mut room = vec![in call.heap; 0; piece.len()]?;
        let _ = cipher.decrypt(piece.as_slice(), room.as_mut_slice());
        out.extend_from_slice(room.as_slice())?;
    }
    Ok(Reply::Out(out))
}

// Which way a cipher is used.
// Stays an enum that one block and a chain match on: the two ways of a cipher are two functions with other parameters.
#[derive(Clone, Copy)]
pub(crate) enum Way {
    Encrypt,
    Decrypt,
}

// The cipher under the key of the call, if it takes the key.
fn cipher<C: KeyedCipher>(call: &Call) -> Result<Option<C>, Fault> {
    let key: Vec<u8> = call.needed(Key::Key)?;
    Ok(C::with_key(key.as_slice()))
}

// One block under a cipher.
pub(crate) fn one_block<C: KeyedCipher>(way: Way, call: &Call) -> Result<Reply, LineError> {
    let Some(cipher) = cipher::<C>(call)? else {
        return Ok(Reply::NoKey);
    };
    let input = call.needed(Key::Block)?;
    let out = match way {
        Way::Encrypt => cipher.encrypt_block(&input),
        Way::Decrypt => cipher.decrypt_block(&input),
    };
    Ok(Reply::Out(Vec::from_slice(call.heap, &out)?))
}

// The bytes of `data`, chained under a cipher behind `iv`.
pub(crate) fn chain<C: KeyedCipher>(way: Way, call: &Call) -> Result<Reply, LineError> {
    let Some(cipher) = cipher::<C>(call)? else {
        return Ok(Reply::NoKey);
    };
    let iv = call.needed(Key::Iv)?;
    let input: Vec<u8> = call.needed(Key::Data)?;
    let mut out = vec![in call.heap; 0; input.len().saturating_add(16)]?;
    let count = match way {
        Way::Encrypt => encrypt_cbc(&cipher, input.as_slice(), &iv, out.as_mut_slice()),
        Way::Decrypt => decrypt_cbc(
            &cipher,
            input.as_slice(),
            &iv,
            call.needed(Key::Unpad)?,
            out.as_mut_slice(),
        ),
    };
    out.truncate(count.unwrap_or(0));
    Ok(Reply::Out(out))
}
