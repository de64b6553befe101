// What shapes demand of a predicate, as one number: the weights of targets, and another where an edge is required.
ghost use Rattle.std.specs.Prelude.{◌≡◌, ◌+◌, ◌*◌, ◌<◌};
ghost use Rattle.meaning.specs.Limits.{literal_bit, max_types, multiplicity_room};
ghost use Rattle.shapes.specs.Demands.{CellDemand, DemandsOf, IsJoined, RowDemands, TableDemands, required_in, targets_in};
ghost use Rattle.shapes.specs.Shapes.{CodesFit};

use crate::TYPES;
use meaning::{LITERAL_WEIGHT, MAX_PREDICATES, MAX_TYPES, MULTIPLICITY_ROOM, ShapeTable};
use std::array;

// The weight that no target has, and those of all targets.
const REQUIRED: u16 = LITERAL_WEIGHT / 2;

const TARGETS: u16 = TYPES + LITERAL_WEIGHT;

// What a type set demands, by predicate; and what each type demands.
pub type Demands = [u16; MAX_PREDICATES];

pub type DemandTable = [[u16; MAX_PREDICATES]; MAX_TYPES];

// Whether an edge is required.
pub fn required_in(demand: u16) -> bool
    ensures { result ≡ required_in demand }
{
    demand / REQUIRED % 2 == 1
}

// The mask of the targets.
pub fn targets_in(demand: u16) -> u16
    ensures { result ≡ targets_in demand }
{
    demand & TARGETS
}

// What a cell's shape demands.
fn cell_demand(cell: u16) -> u16
    requires { cell < (literal_bit + 1) * multiplicity_room }
    ensures { CellDemand cell result }
{
    if cell == 0 {
        return 0;
    }
    let target = 1u16 << (cell / MULTIPLICITY_ROOM);
    if meaning::requires_edge((cell % MULTIPLICITY_ROOM) as u8) {
        return target | REQUIRED;
    }
    target
}

// What a type's shapes demand. A loop, and no map of the row: the proof does not know how long a row of the table is.
fn row_demands(shapes: &ShapeTable, t: usize) -> Demands
    requires { (t < max_types) × CodesFit shapes.now }
    ensures { RowDemands shapes.now t result }
{
    let mut row = [0u16; MAX_PREDICATES];
    for p in 0..MAX_PREDICATES {
        let it = cell_demand(shapes[t][p]);
        row[p] = it;
    }
    row
}

// What each type's shapes demand. A loop, and no from_fn: a closure that calls row_demands would need its contract written again.
pub fn demand_table(shapes: &ShapeTable) -> DemandTable
    requires { CodesFit shapes.now }
    ensures { TableDemands shapes.now result }
{
    let mut table = [[0u16; MAX_PREDICATES]; MAX_TYPES];
    for t in 0..MAX_TYPES {
        let row = row_demands(shapes, t);
        table[t] = row;
    }
    table
}

// Demands, and those of type t.
fn joined(all: Demands, table: &DemandTable, t: usize) -> Demands
    requires { t < max_types }
    ensures { IsJoined all table.now t result }
{
    array::from_fn(|p| all[p] | table[t][p])
}

// What the members of a mask demand: "The members of a type set are taken from the lowest number upward."
pub fn demands_of(table: &DemandTable, mask: u16) -> Demands
    ensures { DemandsOf table.now mask result }
{
    // Members lowest first, by trailing_zeros: a form that document 01 names.
    let mut left = mask & TYPES;
    let mut all = [0u16; MAX_PREDICATES];
    while left != 0 {
        let t = u16::trailing_zeros(left) as usize;
        left &= left - 1;
        let more = joined(all, table, t);
        all = more;
    }
    all
}
