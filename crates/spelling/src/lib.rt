// Spelling IRIs by RFC 3986: which bytes stay, values written as segments, texts compared with them.
#![tactic(auto)]

pub mod table; // table.rt: the 256 entries
pub mod write; // write.rt: a value's segment written into a lent slice
pub mod compare; // compare.rt: whether a value's segment stands in a text
