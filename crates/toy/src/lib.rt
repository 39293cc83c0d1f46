// A crypt method that no standard has, to show what else can be handed in: it has a header without which there is nothing
// to restore, and an end mark, so that its restoring lags a byte behind.

#![tactic(auto)]

pub mod framed;
