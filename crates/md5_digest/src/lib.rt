// MD5 by RFC 1321, fed in pieces.

#![tactic(auto)]

ghost use Rattle.std.specs.Prelude.{◌≡◌, ℕ, ◌+◌, ◌%◌, ◌^◌, ◌<◌, ◌≤◌, List, [], ◌++◌, length};
ghost use Rattle.md5_digest.specs.Md5.{mixed, word_number, compressed, digest, digested, Completes, HasSixteenBytes};
ghost use Rattle.md5_digest.specs.Md5.{step as step_of, words as words_of, md5 as md5_of};
ghost use Rattle.md5_digest.specs.Stream.{absorbing, digest_after};

mod tables;

use tables::{CONSTANTS, PADDING, SHIFT_AMOUNTS};

#[derive(Clone, Copy)]
struct Registers {
    a: u32,
    b: u32,
    c: u32,
    d: u32,
}

// The four registers, each low-order byte first.
impl From<Registers> for [u8; 16] {
    ghost from_gives = { λ h bytes. bytes ≡ digest h };

    fn from(h: Registers) -> [u8; 16] {
        let words = [h.a, h.b, h.c, h.d].map(u32::to_le_bytes);
        let mut bytes = [0; 16];
        bytes.copy_from_slice(words.as_flattened());
        bytes
    }
}

// The mixed value and the word number of step i.
// Stays a match on the step's number: it chooses the value and the word together, as the ported function does.
fn choose(v: Registers, i: usize) -> (u32, usize)
    requires { i < 64 }
    ensures value { result.0 ≡ mixed i v }
    ensures word { result.1 ≡ word_number i }
    ensures within { result.1 < 16 }
{
    match i {
        0..=15 => ((v.b & v.c) | (!v.b & v.d), i),
        16..=31 => ((v.d & v.b) | (!v.d & v.c), (5 * i + 1) % 16),
        32..=47 => (v.b ^ v.c ^ v.d, (3 * i + 5) % 16),
        _ => (v.c ^ (v.b | !v.d), (7 * i) % 16),
    }
}

fn step(v: Registers, words: &[u32; 16], i: usize) -> Registers
    requires { i < 64 }
    ensures { result ≡ step_of words.now i v }
{
    let (f, g) = choose(v, i);
    let sum = v
        .a
        .wrapping_add(f)
        .wrapping_add(CONSTANTS[i])
        .wrapping_add(words[g]);
    Registers {
        a: v.d,
        b: v.b.wrapping_add(sum.rotate_left(SHIFT_AMOUNTS[i])),
        c: v.b,
        d: v.c,
    }
}

// The sixteen words of a block, each of four bytes, low-order byte first.
fn words(block: &[u8; 64]) -> [u32; 16]
    ensures { result ≡ words_of 16 block.now }
{
    let mut words = [0u32; 16];
    let mut left = &block[..];
    for word in &mut words {
        let [b0, b1, b2, b3, rest @ ..] = left else {
            unreachable()
        };
        *word = u32::from_le_bytes([*b0, *b1, *b2, *b3]);
        left = rest;
    }
    words
}

// The registers after a block.
fn compress(h: Registers, block: &[u8; 64]) -> Registers
    ensures { result ≡ compressed h block.now }
{
    let words = words(block);
    let v = (0..64).fold(h, |v, i| step(v, &words, i));
    Registers {
        a: h.a.wrapping_add(v.a),
        b: h.b.wrapping_add(v.b),
        c: h.c.wrapping_add(v.c),
        d: h.d.wrapping_add(v.d),
    }
}

// A digest under way: the registers after the complete blocks, the bytes behind them, and the number of bytes given, modulo 2^64.
// Stays a buffer with a count beside it: nothing is allocated, and the padding asks for the count of all bytes.
#[derive(Clone, Copy)]
pub struct Md5 {
    chain: Registers,
    buffer: [u8; 64],
    count: u64,
}

impl Md5 {
    // A digest that has been given nothing, from these registers.
    // Stays below `new`, as `absorb` below `update`: a public function has no proof written by hand.
    fn from_registers(chain: Registers) -> Md5
        ensures { (rest : List ℕ) → digest_after result rest ≡ digested chain rest }
    {
        Md5 {
            chain,
            buffer: [0; 64],
            count: 0,
        }
    }

    // A digest that has been given nothing.
    pub fn new() -> Md5
        ensures { (rest : List ℕ) → digest_after result rest ≡ md5_of rest }
    {
        Md5::from_registers(Registers {
            a: 0x67452301,
            b: 0xefcdab89,
            c: 0x98badcfe,
            d: 0x10325476,
        })
    }

    // More of the open block, which may complete it.
    fn hold(&mut self, part: &[u8])
        requires { self.old.count % 64 + length part.now ≤ 64 }
        ensures absorbs { (more : List ℕ) → absorbing self.new more ≡ absorbing self.old (part.now ++ more) }
        ensures counts { self.new.count ≡ (self.old.count + length part.now) % 2 ^ 64 }
    {
        let at = (self.count % 64) as usize;
        let end = at + part.len();
        self.buffer[at..end].copy_from_slice(part);
        self.count = self.count.wrapping_add(part.len() as u64);
        if end == self.buffer.len() {
            self.chain = compress(self.chain, &self.buffer);
        }
    }

    // A whole block, where no byte of an open block is held.
    fn take_block(&mut self, block: &[u8; 64])
        requires { self.old.count % 64 ≡ 0 }
        ensures absorbs { (more : List ℕ) → absorbing self.new more ≡ absorbing self.old (block.now ++ more) }
        ensures counts { self.new.count ≡ (self.old.count + 64) % 2 ^ 64 }
    {
        self.chain = compress(self.chain, block);
        self.count = self.count.wrapping_add(64);
    }

    // A piece: what the open block still takes, whole blocks, and the rest.
    fn absorb(&mut self, piece: &[u8])
        ensures absorbs { (more : List ℕ) → absorbing self.new more ≡ absorbing self.old (piece.now ++ more) }
        ensures counts { self.new.count ≡ (self.old.count + length piece.now) % 2 ^ 64 }
        ensures digests { (rest : List ℕ) → digest_after self.new rest ≡ digest_after self.old (piece.now ++ rest) }
    {
        let open = (64 - (self.count % 64) as usize) % 64;
        let (front, rest) = piece.split_at(open.min(piece.len()));
        self.hold(front);
        let (blocks, end) = rest.as_chunks::<64>();
        for block in blocks {
            self.take_block(block);
        }
        self.hold(end);
    }

    // Takes the next piece of the message. Only the joining of the pieces matters.
    pub fn update(&mut self, piece: &[u8])
        ensures { (rest : List ℕ) → digest_after self.new rest ≡ digest_after self.old (piece.now ++ rest) }
    {
        self.absorb(piece);
    }

    // The padding and the length, which complete the last block.
    fn pad(&mut self)
        ensures { digest self.new.chain ≡ digest_after self.old [] }
    {
        let bits = self.count.wrapping_mul(8);
        let at = (self.count % 64) as usize;
        let fill = if at < 56 { 56 - at } else { 120 - at };
        self.absorb(&PADDING[0..fill]);
        self.absorb(&bits.to_le_bytes());
    }

    // The digest of the pieces, joined.
    pub fn finish(mut self) -> [u8; 16]
        ensures { result ≡ digest_after self [] }
    {
        self.pad();
        <[u8; 16]>::from(self.chain)
    }
}

// The digest of a whole message.
pub fn calculate(message: &[u8]) -> [u8; 16]
    ensures { result ≡ md5_of message.now }
{
    let mut m = Md5::new();
    m.update(message);
    m.finish()
}

// The padding completes a block, with no more zeros than that takes; a digest has 16 bytes.
pub fn laws()
    ensures completes { Completes }
    ensures sixteen { HasSixteenBytes }
{}
