// The padding of the last block.
ghost use Rattle.std.specs.Prelude.{◌≡◌, ◌<◌, length, slice_index};
ghost use Rattle.cbc.specs.Pad.{all_are, pad_length, padded, padding_of};

// How many bytes of padding n bytes get: 1 to 16.
pub fn pad_length(n: usize) -> usize
    ensures { result ≡ pad_length n }
{
    16 - n % 16
}

fn all_are(bytes: &[u8], k: u8) -> bool
    ensures { result ≡ all_are k bytes.now }
{
    bytes.iter().all(|b| *b == k)
}

// How many bytes of padding a block has that ends in the byte `last`.
fn padding_by(block: &[u8; 16], last: u8) -> usize
    requires { last ≡ slice_index block.now 15 }
    ensures { result ≡ padding_of block.now }
{
    let k = usize::from(last);
    if k == 0 || k > 16 {
        return 0;
    }
    let (_, end) = block.split_at(16 - k);
    if all_are(end, last) { k } else { 0 }
}

// How many bytes of padding the block ends in: as many as its last byte says, or 0 where that is no number from 1 to 16 or
// not all of so many bytes are equal to it.
// Stays a number: the callers subtract it, and 0 is what they would make of none.
pub fn padding(block: &[u8; 16]) -> usize
    ensures { result ≡ padding_of block.now }
{
    padding_by(block, block[15])
}

// The last block of the padded data: the bytes behind the complete blocks, and the padding.
pub(crate) fn padded_block(rest: &[u8]) -> [u8; 16]
    requires { length rest.now < 16 }
    ensures { result ≡ padded rest.now }
{
    let n = rest.len();
    let mut out = [pad_length(n) as u8; 16];
    out[0..n].copy_from_slice(rest);
    out
}
