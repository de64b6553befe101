// The pairs of named nodes that a query joins, by a walk from each start over named nodes alone.
#![tactic(auto)]

pub mod keys; // a pair as one number
pub mod pairs; // the walk from each start
