// How far a chained restoring has come.
ghost use Rattle.std.specs.Prelude.{◌≡◌, ◌<◌, length};
ghost use Rattle.chained.specs.Last.{width};

use crate::last::Last;

#[derive(Drop)]
pub struct Progress {
    last: Last,
    // The bytes of the block that is coming are the first `filled` of `part`.
    // Stays an array and a length: there is no heap for a Vec.
    part: [u8; 16],
    filled: usize,
    ghost wide: { width last ≡ 16 },
    ghost long: { length part ≡ 16 },
    ghost few: { filled < 16 },
}

mod steps;
