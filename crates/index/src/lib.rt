// The triples by subject, in a list of two numbers for each node, and by object, in one list.
#![tactic(auto)]

pub mod subjects; // each node's first triple and how many it has
pub mod objects; // the triples with each object together
