// A record as numbers: so many 16-bit numbers, by its kind, written from a place on.
#![tactic(auto)]

pub mod put;
pub mod record;
pub mod row;
pub mod rule;
pub mod setting;
