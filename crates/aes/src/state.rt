// The state as four words, one for each column, and the rounds on it.
ghost use Rattle.std.specs.Prelude.{◌≡◌, slice_index};
ghost use Rattle.aes.specs.Direction.{substituted, shifted, columns_mixed, column_mixed, column_substituted};
ghost use Rattle.aes.specs.State.{add_round_key};
ghost use Rattle.aes.specs.Words.{bytes_of, unpacked, added};

use crate::direction::Direction;

// The four words of a round key.
pub(crate) type RoundKey = [[u8; 4]; 4];

// A column with a key's word added.
fn first_column(bytes: &[u8; 4], key: &[u8; 4]) -> u32
    ensures { bytes_of result ≡ added (slice_index bytes.now 0) (slice_index bytes.now 1) (slice_index bytes.now 2) (slice_index bytes.now 3) key.now }
{
    u32::from_le_bytes(*bytes) ^ u32::from_le_bytes(*key)
}

// Only adds the round key.
pub(crate) fn first_round(key: &RoundKey, block: &[u8; 16]) -> [u32; 4]
    ensures { unpacked result ≡ add_round_key key.now 0 block.now }
{
    let (columns, _) = block.as_chunks();
    [
        first_column(&columns[0], &key[0]),
        first_column(&columns[1], &key[1]),
        first_column(&columns[2], &key[2]),
        first_column(&columns[3], &key[3]),
    ]
}

// One column through the S-box and the columns' matrix, with a key's word added.
fn column<D: Direction>(bytes: &[u8; 4], key: &[u8; 4]) -> u32
    ensures { bytes_of result ≡ column_mixed D.inverse bytes.now key.now }
{
    let rows = D::rows();
    let [a, b, c, d] = *bytes;
    let low = rows[0][a as usize] ^ rows[1][b as usize];
    let high = rows[2][c as usize] ^ rows[3][d as usize];
    (low ^ high) ^ u32::from_le_bytes(*key)
}

pub(crate) fn round<D: Direction>(key: &RoundKey, state: &[u32; 4]) -> [u32; 4]
    ensures { unpacked result ≡ add_round_key key.now 0 (columns_mixed D.inverse (shifted D.inverse (substituted D.inverse (unpacked state.now)))) }
{
    let columns = D::columns(state);
    [
        column::<D>(&columns[0], &key[0]),
        column::<D>(&columns[1], &key[1]),
        column::<D>(&columns[2], &key[2]),
        column::<D>(&columns[3], &key[3]),
    ]
}

// One column through the S-box, with a key's word added.
fn last_column<D: Direction>(bytes: &[u8; 4], key: &[u8; 4]) -> [u8; 4]
    ensures { result ≡ column_substituted D.inverse bytes.now key.now }
{
    let [a, b, c, d] = *bytes;
    [
        D::byte(a) ^ key[0],
        D::byte(b) ^ key[1],
        D::byte(c) ^ key[2],
        D::byte(d) ^ key[3],
    ]
}

// Mixes no columns.
pub(crate) fn last_round<D: Direction>(key: &RoundKey, state: &[u32; 4]) -> [u8; 16]
    ensures { result ≡ add_round_key key.now 0 (shifted D.inverse (substituted D.inverse (unpacked state.now))) }
{
    let columns = D::columns(state);
    let [a, b, c, d] = last_column::<D>(&columns[0], &key[0]);
    let [e, f, g, h] = last_column::<D>(&columns[1], &key[1]);
    let [i, j, k, l] = last_column::<D>(&columns[2], &key[2]);
    let [m, n, o, p] = last_column::<D>(&columns[3], &key[3]);
    [a, b, c, d, e, f, g, h, i, j, k, l, m, n, o, p]
}
