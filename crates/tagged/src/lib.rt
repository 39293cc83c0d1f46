// One crypt method that goes by a tag over the four built-in ones.

#![tactic(auto)]

pub mod state;
pub mod tag;
