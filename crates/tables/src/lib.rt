// What building takes of a setting's numbers as tables: arities of constructors, shapes, heads of rules.
#![tactic(auto)]

pub mod arities;
pub mod heads;
pub mod shape_tables;
