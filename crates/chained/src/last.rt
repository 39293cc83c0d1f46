// The end of what a chained restoring has taken in, in whole blocks.

#[derive(Clone, Copy)]
pub enum Last {
    // the start vector is not complete
    Nothing,
    // the start vector, and no block behind it
    Vector([u8; 16]),
    // the last block as it is stored, and as it is restored
    Restored([u8; 16], [u8; 16]),
}
