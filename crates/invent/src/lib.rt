// The sets of the invented nodes, as bits by set number: those that the core leads to, and what follows from each.
#![tactic(auto)]

ghost use Rattle.std.specs.Prelude.{replicate, ◌≡◌, ℕ, ◌+◌, ◌<◌};
ghost use Rattle.spread.specs.Keys.{origin_at};
ghost use Rattle.core_lists.specs.Origin.{keys_before};
ghost use Rattle.invent.specs.Invent.{AllWait, CloseShown, CoreLacks, InventShown, Lacks, Leads, Marks, Next, NodeLacks, OfDemand, OfTable, mask_of, number_of};
ghost use Rattle.meaning.specs.Built.{invented};
ghost use Rattle.meaning.specs.Limits.{max_core_nodes, max_predicates, member_sets, set_words};
ghost use Rattle.meaning.specs.Tables.{set_of_mask};
ghost use Rattle.shapes.specs.Shapes.{CodesFit};
ghost use Rattle.worklist.specs.Table.{Same, Table, board_of};

use core_lists::{Core, PREDICATES};
use meaning::{LITERAL_WEIGHT, SET_WORDS, ShapeTable, TYPE_SETS};
use shapes::demand::{DemandTable, demand_table, demands_of, required_in, targets_in};
use worklist::Board;

// How many sets of types there are and Literal's weight, as masks and as set numbers have them.
pub const SETS: u16 = TYPE_SETS as u16;

const LITERAL: usize = LITERAL_WEIGHT as usize;

// The words of the sets of types; {Literal} is the first set of the word after them.
pub const TYPE_WORDS: usize = SET_WORDS / 2;

// The number of a mask's set: its types by their weights, and as many more as there are sets of types where Literal is a member.
fn set_number(mask: u16) -> usize
    ensures { result ≡ number_of mask }
{
    (mask % SETS + mask / LITERAL_WEIGHT * SETS) as usize
}

// The mask of a set's number.
fn set_mask(number: usize) -> u16
    requires { number < member_sets }
    ensures { result ≡ mask_of number }
{
    (number % TYPE_SETS + number / TYPE_SETS * LITERAL) as u16
}

// Marks the targets of a demand if an edge is required.
fn mark_targets(demand: u16, board: &mut Board)
    requires { Table set_words (board_of board.old) }
    ensures { (mask p : ℕ) → Marks (OfDemand mask p demand) (λ P. Leads P (invented (set_of_mask mask)) p) (board_of board.old) (board_of board.new) }
{
    if required_in(demand) {
        board.mark(set_number(targets_in(demand)));
    }
}

// The same for all that a set demands.
fn mark_all(demands: &DemandTable, mask: u16, board: &mut Board)
    requires { Table set_words (board_of board.old) }
    ensures { Marks (OfTable demands.now) (Next mask) (board_of board.old) (board_of board.new) }
{
    let row = demands_of(demands, mask);
    for demand in row {
        mark_targets(demand, board);
    }
}

// Takes the sets that wait, one after another, and marks what follows from each, until none waits.
fn close(demands: &DemandTable, board: &mut Board)
    requires { Table set_words (board_of board.old) × AllWait (board_of board.old) }
    ensures { CloseShown demands.now board.old.marked.now board.new.marked.now × Same (board_of board.old) (board_of board.new) }
{
    while let Some(number) = board.take() {
        mark_all(demands, set_mask(number), board);
    }
}

// Marks the p-targets of a core node that requires p and has no p-edge; returns the place after its p-edges.
fn seed_edge(
    core: &Core,
    subject: usize,
    demand: u16,
    p: usize,
    from: usize,
    board: &mut Board,
) -> usize
    requires { (subject < max_core_nodes) × (p < max_predicates) × (from ≡ keys_before (origin_at subject p) core.now.triples.now)
        × Table set_words (board_of board.old) }
    ensures { ((mask : ℕ) → Marks (OfDemand mask p demand) (λ P. Lacks P core.now.triples.now subject mask p) (board_of board.old) (board_of board.new))
        × (result ≡ keys_before (origin_at subject p + 1) core.now.triples.now) }
{
    let at = core.after((subject * PREDICATES + p) as u64, from);
    if at == from {
        mark_targets(demand, board);
    }
    at
}

// The same for every predicate.
fn seed_node(
    demands: &DemandTable,
    core: &Core,
    subject: usize,
    mask: u16,
    from: usize,
    board: &mut Board,
) -> usize
    requires { (subject < max_core_nodes) × (from ≡ keys_before (origin_at subject 0) core.now.triples.now)
        × Table set_words (board_of board.old) }
    ensures { Marks (OfTable demands.now) (NodeLacks core.now.triples.now subject mask) (board_of board.old) (board_of board.new)
        × (result ≡ keys_before (origin_at subject max_predicates) core.now.triples.now) }
{
    let row = demands_of(demands, mask);
    let mut at = from;
    for (p, &demand) in row.iter().enumerate() {
        at = seed_edge(core, subject, demand, p, at, board);
    }
    at
}

// The same for every core node.
fn seed(demands: &DemandTable, core: &Core, board: &mut Board)
    requires { Table set_words (board_of board.old) }
    ensures { Marks (OfTable demands.now) (CoreLacks core.now.nodes.now core.now.triples.now core.now.masks.now) (board_of board.old) (board_of board.new) }
{
    let masks = &core.masks[..core.nodes.len()];
    let mut at = 0;
    for (s, &mask) in masks.iter().enumerate() {
        at = seed_node(demands, core, s, mask, at, board);
    }
}

// The sets of the invented nodes: what the core leads to, and what follows. The flags are lent without a set.
pub fn invent(shapes: &ShapeTable, core: &Core, flags: &mut [u64])
    requires { (flags.old ≡ replicate set_words 0) × CodesFit shapes.now }
    ensures { InventShown shapes.now core.now flags.new }
{
    let demands = demand_table(shapes);
    let mut waiting = [0u64; SET_WORDS];
    let mut stack = [0u16; SET_WORDS];
    let mut board = Board {
        marked: flags,
        waiting: &mut waiting,
        stack: &mut stack,
        top: 0,
    };
    seed(&demands, core, &mut board);
    close(&demands, &mut board);
}
