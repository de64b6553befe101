// The list of a query's pairs: found in the graph of a pack, and written with it into the lent lists.
#![tactic(auto)]

pub mod find; // the pairs, found
pub mod publish; // the graph and the pairs, written
