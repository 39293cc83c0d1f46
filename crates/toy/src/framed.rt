// The start vector as a header, the data, and the end mark 0x80.
ghost use Rattle.std.specs.Prelude.{◌≡◌, ◌+◌, ◌-◌, ◌≤◌, true, false, [], ◌++◌, length, MatchResult, nat_lt};
ghost use Rattle.byte_strings.specs.Bytes.{Writes};
ghost use Rattle.methods.specs.Refusal.{given, Gives};
ghost use Rattle.methods.specs.Running.{Fed};
ghost use Rattle.methods.specs.declared.refusal.MethodRefusal.TheVariants.{KeyLength};
ghost use Rattle.toy.specs.Framed.{strip, stored_form, unframing, listed, meaning, framed_scheme};
ghost use Rattle.toy.specs.Unframing.{unframing_fits, framed_lawful};

use methods::key_kind::KeyKind;
use methods::method::CryptMethod;
use methods::refusal::MethodRefusal;
use methods::running::Running;

const MARK: u8 = 0x80;

#[derive(Drop)]
pub struct FramedState {
    // how many bytes of the header have not come yet
    missing: usize,
    // the latest byte of the data: it may be the end mark
    held: Option<u8>,
}

// Writes the held byte, if any, and the bytes of `front` behind it.
fn write_both(held: Option<u8>, front: &[u8], out: &mut [u8]) -> usize
    requires { length (listed held) + length front.now ≤ length out.old }
    ensures count { result ≡ length (listed held) + length front.now }
    ensures writes { Writes (listed held ++ front.now) out.old out.new }
{
    let n = front.len();
    match held {
        Some(b) => {
            out[0] = b;
            out[1..n + 1].copy_from_slice(front);
            n + 1
        }
        None => {
            out[0..n].copy_from_slice(front);
            n
        }
    }
}

impl FramedState {
    // Passes over what is missing of the header, writes what was held and all but the last byte, and holds that.
    fn take_in(&mut self, piece: &[u8], out: &mut [u8]) -> usize
        requires { (meaning self.old).hands (length piece.now) ≤ length out.old }
        ensures { Fed (meaning self.old) piece.now out.old (meaning self.new) result out.new }
    {
        let skip = self.missing.min(piece.len());
        self.missing -= skip;
        let Some((last, front)) = piece[skip..].split_last() else {
            return 0;
        };
        let count = write_both(self.held, front, out);
        self.held = Some(*last);
        count
    }

    // Writes the held byte unless it is the end mark.
    fn finish(&self, out: &mut [u8]) -> Result<usize, MethodRefusal>
        requires { (meaning self.now).closing ≤ length out.old }
        ensures { Gives (given ((meaning self.now).ahead [])) out.old result out.new }
    {
        if self.missing > 0 {
            return Err(MethodRefusal::TooShort);
        }
        match self.held {
            Some(b) if b != MARK => {
                out[0] = b;
                Ok(1)
            }
            _ => Ok(0),
        }
    }
}

impl Running for FramedState {
    ghost means = { meaning };

    ghost fits = { λ s. unframing_fits s.missing (listed s.held) };

    fn feed_len(&self, n: usize) -> Option<usize> {
        let body = n.saturating_sub(self.missing);
        match self.held {
            Some(_) => Some(body),
            None => Some(body.saturating_sub(1)),
        }
    }

    fn close_len(&self) -> Option<usize> {
        match self.held {
            Some(_) => Some(1),
            None => Some(0),
        }
    }

    fn close_len_after(&self, n: usize) -> Option<usize> {
        match self.held {
            Some(_) => Some(1),
            None => Some(n.saturating_sub(self.missing).min(1)),
        }
    }

    fn feed(&mut self, piece: &[u8], out: &mut [u8]) -> usize {
        self.take_in(piece, out)
    }

    fn close(&self, out: &mut [u8]) -> Result<usize, MethodRefusal> {
        self.finish(out)
    }
}

// The bytes without an end mark.
fn stripped(body: &[u8]) -> &[u8]
    ensures { result.now ≡ strip body.now }
{
    match body.split_last() {
        Some((last, front)) if *last == MARK => front,
        _ => body,
    }
}

// Writes the header, the data and the end mark.
fn frame(vector: &[u8; 16], data: &[u8], out: &mut [u8]) -> usize
    requires { length «data».now + 17 ≤ length out.old }
    ensures count { result ≡ length (stored_form vector.now «data».now) }
    ensures writes { Writes (stored_form vector.now «data».now) out.old out.new }
{
    let n = data.len();
    out[0..16].copy_from_slice(vector);
    out[16..n + 16].copy_from_slice(data);
    out[n + 16] = MARK;
    n + 17
}

// Writes what stands between the header and the end mark.
fn unframe(bytes: &[u8], out: &mut [u8]) -> Result<usize, MethodRefusal>
    requires { length bytes.now - 16 ≤ length out.old }
    ensures { Gives (given ((unframing 16 []).ahead bytes.now)) out.old result out.new }
{
    let Some((_, body)) = bytes.split_first_chunk::<16>() else {
        return Err(MethodRefusal::TooShort);
    };
    let body = stripped(body);
    let n = body.len();
    out[0..n].copy_from_slice(body);
    Ok(n)
}

// A key has a byte or more.
fn check_key(key: &[u8]) -> Result<(), MethodRefusal>
    ensures { MatchResult result (λ _. nat_lt 0 (length key.now) ≡ true) (λ e. (nat_lt 0 (length key.now) ≡ false) × (e ≡ KeyLength)) }
{
    if key.is_empty() {
        return Err(MethodRefusal::KeyLength);
    }
    Ok(())
}

#[derive(Clone, Copy)]
pub struct Framed;

impl CryptMethod for Framed {
    type State = FramedState;

    ghost scheme = { λ _. framed_scheme };

    ghost lawful = { λ m. framed_lawful };

    fn takes(&self) -> KeyKind {
        KeyKind::Salted
    }

    fn admits(&self, key_len: usize) -> bool {
        key_len > 0
    }

    fn stored_len(&self, n: usize) -> Option<usize> {
        n.checked_add(17)
    }

    fn protect(
        &self,
        key: &[u8],
        vector: &[u8; 16],
        data: &[u8],
        out: &mut [u8],
    ) -> Result<usize, MethodRefusal> {
        check_key(key)?;
        Ok(frame(vector, data, out))
    }

    fn restore(&self, key: &[u8], bytes: &[u8], out: &mut [u8]) -> Result<usize, MethodRefusal> {
        check_key(key)?;
        unframe(bytes, out)
    }

    fn start(&self, key: &[u8]) -> Result<FramedState, MethodRefusal> {
        check_key(key)?;
        Ok(FramedState {
            missing: 16,
            held: None,
        })
    }
}
