// Objects of an opened file: protecting, restoring whole, and restoring in pieces.

#![tactic(auto)]

mod key;
pub mod object;
pub mod output;
pub mod run;
mod space;
mod tag;
