// Opening a PDF file that the standard security handler protects, and setting one up (ISO 32000-1, 7.6).

#![tactic(auto)]

pub mod checks;
pub mod fields;
pub mod file;
mod inputs;
pub mod laws;
mod making;
pub mod open;
pub mod refusal;
pub mod set_up;
pub mod work;
