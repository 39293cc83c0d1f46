// RC4 as a cipher state that is fed bytes in pieces.

#![tactic(auto)]

ghost use Rattle.std.specs.Prelude.{◌≡◌, ◌<◌, length, MatchOption};
ghost use Rattle.rc4.specs.Rc4.{identity, rounds, keyed, next, key_byte, stream, after, Applied, Joins, Undoes, HoldsEachOnce};

use std::array;

#[derive(Clone, Copy)]
pub struct Rc4 {
    a: u8,
    b: u8,
    s: [u8; 256],
}

// The numbers from 0 to 255, in order.
fn ascending() -> [u8; 256]
    ensures { result ≡ identity }
{
    array::from_fn(|i| i as u8)
}

// The table that the key schedule leaves.
fn schedule(key: &[u8]) -> [u8; 256]
    requires { 0 < length key.now }
    ensures { result ≡ (rounds key.now 256).table }
{
    let mut s = ascending();
    let mut j = 0u8;
    // Stays a loop over the round's number: a round trades the entry at that number.
    for i in 0..256 {
        j = j.wrapping_add(s[i]).wrapping_add(key[i % key.len()]);
        s.swap(i, j as usize);
    }
    s
}

// The cipher before its first byte.
// Stays below `new`: a public function has no proof written by hand.
fn start(key: &[u8]) -> Rc4
    requires { 0 < length key.now }
    ensures { result ≡ keyed key.now }
{
    Rc4 {
        a: 0,
        b: 0,
        s: schedule(key),
    }
}

impl Rc4 {
    // The cipher under a key; none under the empty key.
    pub fn new(key: &[u8]) -> Option<Rc4>
        ensures { MatchOption result (length key.now ≡ 0) (λ c. (0 < length key.now) × (c ≡ keyed key.now)) }
    {
        if key.is_empty() {
            return None;
        }
        Some(start(key))
    }

    // One step of the generator, and its key byte.
    fn key_byte(&mut self) -> u8
        ensures steps { self.new ≡ next self.old }
        ensures byte { result ≡ key_byte (next self.old) }
    {
        self.a = self.a.wrapping_add(1);
        let x = self.s[self.a as usize];
        self.b = self.b.wrapping_add(x);
        let y = self.s[self.b as usize];
        self.s[self.a as usize] = y;
        self.s[self.b as usize] = x;
        self.s[x.wrapping_add(y) as usize]
    }

    // XORs the bytes with the key bytes, in place.
    fn apply(&mut self, bytes: &mut [u8])
        ensures state { self.new ≡ after self.old bytes.old }
        ensures bytes { bytes.new ≡ stream self.old bytes.old }
    {
        for byte in bytes.iter_mut() {
            *byte ^= self.key_byte();
        }
    }

    // Restores the next bytes of a text into the front of the output, and answers their number;
    // none, with nothing changed, where the output is shorter.
    pub fn decrypt(&mut self, input: &[u8], out: &mut [u8]) -> Option<usize>
        ensures { Applied self.old input.now out.old self.new out.new result }
    {
        if out.len() < input.len() {
            return None;
        }
        let front = &mut out[..input.len()];
        front.copy_from_slice(input);
        self.apply(front);
        Some(input.len())
    }

    // Protects the next bytes of a text: the same operation.
    // Stays a function beside `decrypt`: both are names of the ported type.
    pub fn encrypt(&mut self, input: &[u8], out: &mut [u8]) -> Option<usize>
        ensures { Applied self.old input.now out.old self.new out.new result }
    {
        self.decrypt(input, out)
    }
}

// Feeding pieces is feeding them joined; the same key undoes it; the table holds each number once.
pub fn laws()
    ensures joins { Joins }
    ensures undoes { Undoes }
    ensures holds { HoldsEachOnce }
{}
