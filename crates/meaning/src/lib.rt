// The limits of documents 01 and 02 as code names them (specs/Limits.antt has them for the definitions), and the two tests on a
// multiplicity.
#![tactic(auto)]

ghost use Rattle.meaning.specs.Pack.{AnswersTest, requires, limits};

pub mod refusal; // the refusals by name

pub const MAX_PACK_BYTES: usize = 65536;

pub const BODIES: usize = 9;

// The bodies by their numbers.
pub const VALUES_BODY: usize = 0;

pub const RELATIONS_BODY: usize = 1;

pub const DEPENDENCIES_BODY: usize = 2;

pub const TYPES_BODY: usize = 3;

pub const PREDICATES_BODY: usize = 4;

pub const SHAPES_BODY: usize = 5;

pub const CONSTRUCTORS_BODY: usize = 6;

pub const RULES_BODY: usize = 7;

pub const ROWS_BODY: usize = 8;

pub const CONTENTS_BYTES: usize = BODIES * 4;

pub const MAX_VALUES: usize = 256;

pub const MAX_VALUE_BYTES: usize = 64;

pub const MAX_RELATIONS: usize = 16;

pub const MAX_COLUMNS: usize = 8;

pub const MAX_DEPENDENCIES: usize = 32;

pub const MAX_TYPES: usize = 12;

pub const MAX_PREDICATES: usize = 12;

pub const MAX_NAME_BYTES: usize = 16;

pub const MAX_SHAPES: usize = 144;

pub const LITERAL_TARGET: u8 = 255;

pub const MAX_CONSTRUCTORS: usize = 16;

pub const MAX_ARGUMENTS: usize = 4;

pub const MAX_PREFIX_BYTES: usize = 32;

pub const MAX_RULES: usize = 32;

pub const MAX_ATOMS: usize = 3;

pub const MAX_VARIABLES: usize = 16;

pub const MAX_ROWS: usize = 1024;

pub const MAX_QUERY_BYTES: usize = 256;

pub const MAX_OPEN_BRACKETS: usize = 16;

pub const UNUSED: u16 = 65535;

pub const NODE_WIDTH: usize = 7;

pub const TRIPLE_WIDTH: usize = 3;

pub const INDEX_WIDTH: usize = 2;

pub const PAIR_WIDTH: usize = 2;

pub const MAX_IRIS: usize = 512;

pub const MAX_CORE_TRIPLES: usize = 1024;

pub const MAX_PAIRS: usize = 4096;

pub const CLASH_WIDTH: usize = NODE_WIDTH + 1 + 2 * NODE_WIDTH;

pub const REPORT_LENGTH: usize = 3 + CLASH_WIDTH;

pub const TERM_LENGTH: usize = 1 + MAX_ARGUMENTS;

pub const TYPE_SETS: usize = 1 << MAX_TYPES;

pub const MEMBER_SETS: usize = 2 * TYPE_SETS;

pub const MAX_CORE_NODES: usize = MAX_IRIS + MAX_VALUES;

pub const MAX_NODES: usize = MAX_CORE_NODES + TYPE_SETS;

pub const MAX_TRIPLES: usize = MAX_CORE_TRIPLES + (MAX_IRIS + (TYPE_SETS - 1)) * MAX_PREDICATES;

pub const MAX_PARTS: usize = MAX_QUERY_BYTES;

pub const WORD_BITS: usize = 64;

pub const SET_WORDS: usize = MEMBER_SETS / WORD_BITS;

pub const NODE_WORDS: usize = MAX_NODES / WORD_BITS;

pub const STATE_WORDS: usize = (MAX_PARTS + 1) * NODE_WORDS;

pub const NAMED_WORDS: usize = MAX_CORE_NODES / WORD_BITS;

pub const SEEN_WORDS: usize = (MAX_PARTS + 1) * NAMED_WORDS;

pub const NODE_LIST_LENGTH: usize = MAX_NODES * NODE_WIDTH;

pub const TRIPLE_LIST_LENGTH: usize = MAX_TRIPLES * TRIPLE_WIDTH;

pub const INDEX_LENGTH: usize = MAX_NODES * INDEX_WIDTH;

pub const PAIR_LIST_LENGTH: usize = MAX_PAIRS * PAIR_WIDTH;

pub const ROW_WIDTH: usize = MAX_COLUMNS + 1;

pub const ROWS_LENGTH: usize = MAX_ROWS * ROW_WIDTH;

pub const MAX_HEADS: usize = MAX_CORE_TRIPLES;

pub const HEADS_LENGTH: usize = MAX_RULES * MAX_HEADS;

pub const VALUE_ROOM: u64 = MAX_VALUES as u64;

pub const TERM_ROOM: u64 = VALUE_ROOM * VALUE_ROOM * VALUE_ROOM * VALUE_ROOM;

pub const FIRST_LITERAL: u64 = MAX_CONSTRUCTORS as u64 * TERM_ROOM;

pub const PLACE_ROOM: u64 = 1024;

pub const PREDICATE_ROOM: u64 = 16;

pub const SUBJECT_ROOM: u64 = PREDICATE_ROOM * PLACE_ROOM;

pub const PART_ROOM: usize = MAX_QUERY_BYTES;

pub const MULTIPLICITY_ROOM: u16 = 8;

pub const LITERAL_BIT: u16 = 15;

pub const LITERAL_WEIGHT: u16 = 1 << LITERAL_BIT;

pub const HEAD_WIDTH: usize = 6;

pub const MAX_HEAD_VARIABLES: usize = 2 * MAX_ARGUMENTS;

pub const ATOM_WIDTH: usize = MAX_COLUMNS + 2;

pub const ATOMS_LENGTH: usize = MAX_ATOMS * ATOM_WIDTH;

pub const KEY_WIDTH: usize = 8;

pub const CANDIDATES_LENGTH: usize = MAX_ATOMS * MAX_ROWS;

pub const TEXT_WIDTH: usize = 2;

pub const RELATION_WIDTH: usize = 1;

pub const DEPENDENCY_WIDTH: usize = 3;

pub const SHAPE_WIDTH: usize = 4;

pub const CONSTRUCTOR_WIDTH: usize = 1 + TEXT_WIDTH;

pub const RULE_WIDTH: usize = 1 + ATOMS_LENGTH + 1 + MAX_HEAD_VARIABLES + HEAD_WIDTH;

pub const VALUES_AT: usize = 0;

pub const RELATIONS_AT: usize = VALUES_AT + MAX_VALUES * TEXT_WIDTH;

pub const DEPENDENCIES_AT: usize = RELATIONS_AT + MAX_RELATIONS * RELATION_WIDTH;

pub const TYPES_AT: usize = DEPENDENCIES_AT + MAX_DEPENDENCIES * DEPENDENCY_WIDTH;

pub const PREDICATES_AT: usize = TYPES_AT + MAX_TYPES * TEXT_WIDTH;

pub const SHAPES_AT: usize = PREDICATES_AT + MAX_PREDICATES * TEXT_WIDTH;

pub const CONSTRUCTORS_AT: usize = SHAPES_AT + MAX_SHAPES * SHAPE_WIDTH;

pub const RULES_AT: usize = CONSTRUCTORS_AT + MAX_CONSTRUCTORS * CONSTRUCTOR_WIDTH;

pub const SETTING_LENGTH: usize = RULES_AT + MAX_RULES * RULE_WIDTH;

// "Shapes form a table of 8 types by 12 predicates", of 12 by 12 since card 14: a cell for each.
pub type ShapeTable = [[u16; MAX_PREDICATES]; MAX_TYPES];

// The arity of each constructor.
pub type Arities = [u8; MAX_CONSTRUCTORS];

// A type requires an edge if its multiplicity is 1 or 4.
pub fn requires_edge(multiplicity: u8) -> bool
    ensures { AnswersTest requires multiplicity result }
{
    multiplicity == 1 || multiplicity == 4
}

// It allows at most one if its multiplicity is 1 or 2.
pub fn limits_edges(multiplicity: u8) -> bool
    ensures { AnswersTest limits multiplicity result }
{
    multiplicity == 1 || multiplicity == 2
}
