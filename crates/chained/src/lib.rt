// Cipher block chaining over any block cipher, as a crypt method.

#![tactic(auto)]

pub mod chained_method;
pub mod keyed;
pub mod last;
pub mod lengths;
mod progress;
pub mod state;
