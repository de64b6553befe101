// Leaves on lent slices that the other crates share.
#![tactic(auto)]

pub mod buffers; // the front of one slice over another
pub mod ordered; // a set of numbers, kept ascending in a lent slice
