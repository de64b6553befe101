// The shape table, an array of arrays by value.
ghost use Rattle.std.specs.Prelude.{◌≡◌, ◌<◌, ◌≤◌};
ghost use Rattle.meaning.specs.Limits.{literal_target, max_predicates, max_types, multiplicity_room};
ghost use Rattle.meaning.specs.Tables.{ShapeTable};
ghost use Rattle.names.specs.PackGiven.{ForSettingOf};
ghost use Rattle.tables.specs.Tables.{IsResolvedSetting, code_of, put_first};

use meaning::{
    LITERAL_BIT, LITERAL_TARGET, MAX_PREDICATES, MAX_TYPES, MULTIPLICITY_ROOM, SHAPE_WIDTH,
    SHAPES_AT, SHAPES_BODY, ShapeTable,
};
use records::setting::LoadedSetting;

const LITERAL: u16 = LITERAL_TARGET as u16;

const LITERAL_CODE: u16 = LITERAL_BIT * MULTIPLICITY_ROOM;

// A cell: the target, LITERAL_BIT for Literal, and the multiplicity.
fn cell_code(target: u16, multiplicity: u16) -> u16
    requires { (target ≤ literal_target) × (multiplicity < multiplicity_room) }
    ensures { result ≡ code_of target multiplicity }
{
    if target == LITERAL {
        return LITERAL_CODE + multiplicity;
    }
    target * MULTIPLICITY_ROOM + multiplicity
}

// The table with v at type t and predicate p, where that cell is empty.
fn put_first(table: ShapeTable, t: usize, p: usize, v: u16) -> ShapeTable
    requires { (t < max_types) × (p < max_predicates) }
    ensures { result ≡ put_first t p v table }
{
    if table[t][p] != 0 {
        return table;
    }
    let mut next = table;
    next[t][p] = v;
    next
}

// The table of the shapes, of which each names records that are there.
pub fn shape_table(setting: &LoadedSetting) -> ShapeTable
    requires { IsResolvedSetting setting.now.counts setting.now.numbers.now }
    ensures { ForSettingOf setting.now (λ P. ShapeTable P.setting result) }
{
    let n = setting.counts[SHAPES_BODY];
    let mut table = [[0u16; MAX_PREDICATES]; MAX_TYPES];
    for i in 0..n {
        let at = SHAPES_AT + i * SHAPE_WIDTH;
        let t = setting.numbers[at] as usize;
        let p = setting.numbers[at + 1] as usize;
        let v = cell_code(setting.numbers[at + 2], setting.numbers[at + 3]);
        let filled = put_first(table, t, p, v);
        table = filled;
    }
    table
}
