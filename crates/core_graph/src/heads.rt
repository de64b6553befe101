// A rule's head as six numbers, and the heads of all rules with the keys of their matches.
ghost use Rattle.std.specs.Prelude.{◌≡◌, ◌<◌};
ghost use Rattle.core_graph.specs.Bounds.{HeadsFit};
ghost use Rattle.core_graph.specs.Heads.{keys_of};

use meaning::{HEAD_WIDTH, MAX_HEADS, MAX_RULES};

// Where each number stands.
pub const KIND: usize = 0; // 0 a type, 1 a link to a term, 2 a link to a value

pub const SUBJECT: usize = 1; // its constructor

pub const SUBJECT_ARGUMENTS: usize = 2;

pub const NAMED: usize = 3; // the type or the predicate

pub const OBJECT: usize = 4; // its constructor

pub const OBJECT_ARGUMENTS: usize = 5;

// The numbers of a head, of every rule's head, and how many matches each rule has.
pub type Head = [u64; HEAD_WIDTH];

pub type HeadTable = [Head; MAX_RULES];

pub type Counts = [usize; MAX_RULES];

// Of each of the first `count` rules the head, and the keys of its matches: rule r has counts[r], from r * MAX_HEADS on.
#[derive(Clone, Copy)]
pub struct RuleHeads<'a> {
    pub rules: &'a HeadTable,
    pub count: usize,
    pub keys: &'a [u64],
    pub counts: &'a Counts,
    ghost fit: { HeadsFit rules.now count keys.now counts.now },
}

impl<'a> RuleHeads<'a> {
    // The keys of rule r.
    pub fn keys_of(&self, r: usize) -> &'a [u64]
        requires { r < self.now.count }
        ensures { result.now ≡ keys_of self.now.keys.now self.now.counts.now r }
    {
        let start = r * MAX_HEADS;
        &self.keys[start..start + self.counts[r]]
    }
}
