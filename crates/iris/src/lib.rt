// Reading an IRI back, with the values and the constructors of a pack at their places in its bytes.
#![tactic(auto)]

pub mod arguments; // the values of the parts between the "/"
pub mod iri; // an IRI read back
