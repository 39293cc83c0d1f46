// The line format: a call read from text, and its answer written as text.

#![tactic(auto)]

mod act;
mod buffer;
mod call;
pub mod cases;
pub mod fault;
mod from_text;
pub mod job;
pub mod key;
mod objects;
mod op;
mod papers;
mod primitives;
pub mod render;
pub mod reply;
pub mod series;
mod text;
