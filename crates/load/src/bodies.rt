// The bodies of a pack by their numbers: the kind of their records, how many there may be, where they stand.
ghost use Rattle.std.specs.Prelude.{◌≡◌};
ghost use Rattle.load.specs.Bodies.{body_kind, limit_of, place_of};
ghost use Rattle.records.specs.PackHeld.{width};

use meaning::{
    CONSTRUCTOR_WIDTH, CONSTRUCTORS_AT, CONSTRUCTORS_BODY, DEPENDENCIES_AT, DEPENDENCIES_BODY,
    DEPENDENCY_WIDTH, MAX_CONSTRUCTORS, MAX_DEPENDENCIES, MAX_PREDICATES, MAX_RELATIONS, MAX_ROWS,
    MAX_RULES, MAX_SHAPES, MAX_TYPES, MAX_VALUES, PREDICATES_AT, PREDICATES_BODY, RELATION_WIDTH,
    RELATIONS_AT, RELATIONS_BODY, ROW_WIDTH, RULE_WIDTH, RULES_AT, RULES_BODY, SHAPE_WIDTH,
    SHAPES_AT, SHAPES_BODY, TEXT_WIDTH, TYPES_AT, TYPES_BODY, VALUES_AT, VALUES_BODY,
};
use pack::kinds::Kind;

// How many numbers a record has.
pub fn width(kind: Kind) -> usize
    ensures { result ≡ width kind }
{
    match kind {
        Kind::Value => TEXT_WIDTH,
        Kind::Relation => RELATION_WIDTH,
        Kind::Dependency => DEPENDENCY_WIDTH,
        Kind::Name => TEXT_WIDTH,
        Kind::Shape => SHAPE_WIDTH,
        Kind::Constructor => CONSTRUCTOR_WIDTH,
        Kind::Rule => RULE_WIDTH,
        Kind::Row => ROW_WIDTH,
    }
}

// Of body i: the kind of its records, how many there may be, and where they stand.
#[tactic(auto, unfolding(crate::specs::Bodies::body_kind, crate::specs::Bodies::limit_of, crate::specs::Bodies::place_of))]
pub fn layout(i: usize) -> (Kind, usize, usize)
    ensures { (result.0 ≡ body_kind i) × (result.1 ≡ limit_of i) × (result.2 ≡ place_of i) }
{
    match i {
        VALUES_BODY => (Kind::Value, MAX_VALUES, VALUES_AT),
        RELATIONS_BODY => (Kind::Relation, MAX_RELATIONS, RELATIONS_AT),
        DEPENDENCIES_BODY => (Kind::Dependency, MAX_DEPENDENCIES, DEPENDENCIES_AT),
        TYPES_BODY => (Kind::Name, MAX_TYPES, TYPES_AT),
        PREDICATES_BODY => (Kind::Name, MAX_PREDICATES, PREDICATES_AT),
        SHAPES_BODY => (Kind::Shape, MAX_SHAPES, SHAPES_AT),
        CONSTRUCTORS_BODY => (Kind::Constructor, MAX_CONSTRUCTORS, CONSTRUCTORS_AT),
        RULES_BODY => (Kind::Rule, MAX_RULES, RULES_AT),
        _ => (Kind::Row, MAX_ROWS, 0),
    }
}
