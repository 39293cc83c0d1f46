// The two directions of a round, each by its tables and its shift of the rows. A word has its lowest byte first.
ghost use Rattle.std.specs.Prelude.{◌≡◌, Bool, true, false};
ghost use Rattle.aes.specs.Direction.{substitute, shifted, columns, RowsOf};
ghost use Rattle.aes.specs.Words.{unpacked};

use crate::sbox::{inv_sub_byte, sub_byte};
use crate::tables::{TD, TE};

pub(crate) trait Direction {
    // Whether it is the inverse's.
    ghost inverse: { Bool };

    // One byte through the S-box.
    fn byte(b: u8) -> u8
        ensures { result ≡ substitute inverse b };

    // For each row of the state, what a byte in it adds to its column, by the S-box and the columns' matrix.
    fn rows() -> &'static [[u32; 256]; 4]
        ensures { RowsOf inverse result.now };

    // The columns once the rows have been shifted.
    fn columns(state: &[u32; 4]) -> [[u8; 4]; 4]
        ensures { result ≡ columns (shifted inverse (unpacked state.now)) };
}

// The direction of the cipher.
pub(crate) struct Forward;

impl Direction for Forward {
    ghost inverse = { false };

    fn byte(b: u8) -> u8 {
        sub_byte(b)
    }

    fn rows() -> &'static [[u32; 256]; 4] {
        &TE
    }

    fn columns(state: &[u32; 4]) -> [[u8; 4]; 4] {
        let a = state[0].to_le_bytes();
        let b = state[1].to_le_bytes();
        let c = state[2].to_le_bytes();
        let d = state[3].to_le_bytes();
        [
            [a[0], b[1], c[2], d[3]],
            [b[0], c[1], d[2], a[3]],
            [c[0], d[1], a[2], b[3]],
            [d[0], a[1], b[2], c[3]],
        ]
    }
}

// The direction of the equivalent inverse cipher.
// Stays beside `Forward`: the tables differ, and the place that each byte comes from, which a shared shift would compute.
pub(crate) struct Inverse;

impl Direction for Inverse {
    ghost inverse = { true };

    fn byte(b: u8) -> u8 {
        inv_sub_byte(b)
    }

    fn rows() -> &'static [[u32; 256]; 4] {
        &TD
    }

    fn columns(state: &[u32; 4]) -> [[u8; 4]; 4] {
        let a = state[0].to_le_bytes();
        let b = state[1].to_le_bytes();
        let c = state[2].to_le_bytes();
        let d = state[3].to_le_bytes();
        [
            [a[0], d[1], c[2], b[3]],
            [b[0], a[1], d[2], c[3]],
            [c[0], b[1], a[2], d[3]],
            [d[0], c[1], b[2], a[3]],
        ]
    }
}
