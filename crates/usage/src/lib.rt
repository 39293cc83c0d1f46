// The calls of the reader put to use under its promises, and the worked examples.

#![tactic(auto)]

pub mod both_series;
pub mod examples;
pub mod framed;
pub mod round_trip;
pub mod shipped;
pub mod turns;
