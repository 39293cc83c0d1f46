// Crypt methods behind one trait, with the states of restorings under way; the copy and RC4.

#![tactic(auto)]

pub mod identity;
pub mod key_kind;
pub mod method;
pub mod rc4_method;
pub mod refusal;
pub mod running;
