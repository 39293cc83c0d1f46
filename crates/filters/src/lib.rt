// Crypt filters: the filter table, the series that give method texts their tags, and looking a filter up.

#![tactic(auto)]

pub mod laws;
pub mod lookup;
pub mod series;
pub mod table;
pub mod tag;
