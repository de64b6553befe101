// A query's answers in the graph of a pack: whether it is certain, and its certain pairs.
#![tactic(auto)]

mod named; // how many nodes are named
pub mod yes; // yes or no
pub mod pairs; // the pairs
