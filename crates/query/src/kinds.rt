// The kinds of parts (specs/Tree.antt).
pub const STAY: usize = 0;

pub const ANY_STEP: usize = 1;

pub const STEP: usize = 2;

pub const AT_IRI: usize = 3;

pub const AT_LITERAL: usize = 4;

pub const NESTED: usize = 5;

pub const STAR: usize = 6;

pub const SEQUENCE: usize = 7;

pub const UNION: usize = 8;
