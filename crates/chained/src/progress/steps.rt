// The steps of a chained restoring: it holds back the last restored block, which may end in padding.
ghost use Rattle.std.specs.Prelude.{◌≡◌, ◌+◌, ◌-◌, ◌*◌, ◌/◌, ◌<◌, ◌≤◌, min, [], ◌++◌, length, take, drop};
ghost use Rattle.aes.specs.BlockCipher.{Permutation};
ghost use Rattle.methods.specs.Refusal.{given, Gives};
ghost use Rattle.methods.specs.Running.{Fed};
ghost use Rattle.chained.specs.ChainedMethod.{unchaining};
ghost use Rattle.chained.specs.Last.{complete, advanced, released, unpadded, ended};
ghost use Rattle.chained.specs.Steps.{arrived, underway, listed};

use super::Progress;
use crate::last::Last;
use aes::BlockCipher;
use cbc::{padding, restore_block};
use methods::refusal::MethodRefusal;

// How many blocks are complete; two stands for two or more.
// Stays a number: the blocks that are to come are added to it.
fn complete_blocks(last: Last) -> usize
    ensures { result ≡ complete last }
{
    match last {
        Last::Nothing => 0,
        Last::Vector(_) => 1,
        Last::Restored(_, _) => 2,
    }
}

// One block more.
fn advance<C: BlockCipher>(cipher: &C, last: Last, block: [u8; 16]) -> Last
    ensures { result ≡ advanced (C.permutation cipher.now) last block }
{
    match last {
        Last::Nothing => Last::Vector(block),
        Last::Vector(before) | Last::Restored(before, _) => {
            Last::Restored(block, restore_block(cipher, &before, &block))
        }
    }
}

// What one block more sets free.
fn release(last: Last) -> Option<[u8; 16]>
    ensures { listed result ≡ released last }
{
    match last {
        Last::Restored(_, plain) => Some(plain),
        _ => None,
    }
}

// Fills up the block that is coming, and answers how many bytes that takes.
fn fill(part: &mut [u8; 16], filled: usize, piece: &[u8]) -> usize
    requires { filled < 16 }
    ensures count { result ≡ min (16 - filled) (length piece.now) }
    ensures joins { take (filled + result) part.new ≡ take filled part.old ++ take result piece.now }
    ensures full { 16 ≤ filled + result → part.new ≡ take filled part.old ++ take result piece.now }
    ensures keeps { length part.new ≡ 16 }
{
    let n = (16 - filled).min(piece.len());
    part[filled..filled + n].copy_from_slice(&piece[0..n]);
    n
}

// Writes what was set free at `at`, and answers where it ends.
fn put_free(out: &mut [u8], at: usize, free: Option<[u8; 16]>) -> usize
    requires { at + length (listed free) ≤ length out.old }
    ensures end { result ≡ at + length (listed free) }
    ensures writes { out.new ≡ take at out.old ++ (listed free ++ drop (at + length (listed free)) out.old) }
{
    match free {
        Some(block) => {
            out[at..at + 16].copy_from_slice(&block);
            at + 16
        }
        None => at,
    }
}

// How many bytes of the last block are no padding.
fn unpadded_len(block: &[u8; 16]) -> usize
    ensures few { result ≤ 16 }
    ensures long { result ≡ length (unpadded block.now) }
    ensures front { take result block.now ≡ unpadded block.now }
{
    16 - padding(block)
}

// Writes what closing hands out.
fn put_last(last: Last, out: &mut [u8]) -> Result<usize, MethodRefusal>
    requires { length (listed (ended last)) ≤ length out.old }
    ensures { Gives (given (ended last)) out.old result out.new }
{
    match last {
        Last::Nothing => Err(MethodRefusal::TooShort),
        Last::Vector(_) => Ok(0),
        Last::Restored(_, plain) => {
            let n = unpadded_len(&plain);
            out[0..n].copy_from_slice(&plain[0..n]);
            Ok(n)
        }
    }
}

impl Progress {
    // Before the first byte.
    pub(crate) fn new() -> Progress
        ensures { (p : Permutation) → underway p result ≡ unchaining p }
    {
        Progress {
            last: Last::Nothing,
            part: [0; 16],
            filled: 0,
        }
    }

    // Takes bytes up to the end of the block that is coming. Answers how many, and the block that is set free.
    fn accept<C: BlockCipher>(&mut self, cipher: &C, piece: &[u8]) -> (usize, Option<[u8; 16]>)
        ensures count { result.0 ≡ min (16 - self.old.filled) (length piece.now) }
        ensures less { self.old.filled + result.0 < 16 → (self.new.last ≡ self.old.last) × (listed result.1 ≡ []) × (arrived self.new ≡ arrived self.old ++ take result.0 piece.now) }
        ensures full { 16 ≤ self.old.filled + result.0 → (self.new.last ≡ advanced (C.BlockCipher.permutation cipher.now) self.old.last (arrived self.old ++ take result.0 piece.now)) × (listed result.1 ≡ released self.old.last) × (self.new.filled ≡ 0) }
    {
        let n = fill(&mut self.part, self.filled, piece);
        let filled = self.filled + n;
        if filled < 16 {
            self.filled = filled;
            return (n, None);
        }
        let free = release(self.last);
        self.last = advance(cipher, self.last, self.part);
        self.filled = 0;
        (n, free)
    }

    // Takes the piece block by block, and writes what is set free.
    pub(crate) fn take_in<C: BlockCipher>(
        &mut self,
        cipher: &C,
        piece: &[u8],
        out: &mut [u8],
    ) -> usize
        requires { (underway (C.BlockCipher.permutation cipher.now) self.old).hands (length piece.now) ≤ length out.old }
        ensures { Fed (underway (C.BlockCipher.permutation cipher.now) self.old) piece.now out.old (underway (C.BlockCipher.permutation cipher.now) self.new) result out.new }
    {
        let mut left = piece;
        let mut count = 0;
        while !left.is_empty() {
            let (n, free) = self.accept(cipher, left);
            left = &left[n..];
            count = put_free(out, count, free);
        }
        count
    }

    // How many blocks are complete once `n` bytes more are in, counted from at most two.
    pub(crate) fn complete_after(&self, n: usize) -> usize
        ensures { result ≡ complete self.now.last + (length (arrived self.now) + n) / 16 }
    {
        complete_blocks(self.last) + n / 16 + (self.filled + n % 16) / 16
    }

    // Hands out the block that is held back, without its padding.
    pub(crate) fn finish(&self, out: &mut [u8]) -> Result<usize, MethodRefusal>
        requires { (complete self.now.last - 1) * 16 ≤ length out.old }
        ensures { (p : Permutation) → Gives (given ((underway p self.now).ahead [])) out.old result out.new }
    {
        put_last(self.last, out)
    }
}
