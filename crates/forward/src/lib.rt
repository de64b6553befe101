// The walk's steps over named nodes alone: what leads to one of these starts at one.
#![tactic(auto)]

pub mod own; // the triples that end at named nodes
pub mod visit; // the states to which a step leads from a word of them

// The named nodes, which come first: how many they are, the triples that end at one (own), and where the index has those of each;
// and which states are alive.
#[derive(Clone, Copy)]
pub struct Named<'a> {
    pub count: usize,
    pub own: &'a [u16],
    pub index: &'a [u16],
    pub alive: &'a [u64],
}
