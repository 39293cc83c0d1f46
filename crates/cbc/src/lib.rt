// Cipher block chaining with padding, over any block cipher.

#![tactic(auto)]

mod blocks;
mod chaining;
mod pad;

pub use chaining::{decrypt_cbc, encrypt_cbc, protect, restore, restore_block, stored_len};
pub use pad::{pad_length, padding};
