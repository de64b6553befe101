// A part as one number (specs/Tree.antt), and its numbers again.
ghost use Rattle.std.specs.Prelude.{length, ◌≡◌, ◌<◌, ◌≤◌};
ghost use Rattle.meaning.specs.Limits.{part_room};
ghost use Rattle.query.specs.Tree.{first_number, kind_of, part, second_number};

use meaning::PART_ROOM;

const KIND_ROOM: usize = PART_ROOM * PART_ROOM;

pub fn pack(kind: usize, a: usize, b: usize) -> u32
    requires { (kind ≤ 8) × ((a < part_room) × (b < part_room)) }
    ensures { result ≡ part kind a b }
{
    (kind * KIND_ROOM + a * PART_ROOM + b) as u32
}

// The kind of the part i.
pub fn kind_of(tree: &[u32], i: usize) -> usize
    requires { i < length tree.now }
    ensures { result ≡ kind_of tree.now i }
{
    tree[i] as usize / KIND_ROOM
}

// Its first number.
pub fn first_number(tree: &[u32], i: usize) -> usize
    requires { i < length tree.now }
    ensures { result ≡ first_number tree.now i }
{
    tree[i] as usize / PART_ROOM % PART_ROOM
}

// Its second number.
pub fn second_number(tree: &[u32], i: usize) -> usize
    requires { i < length tree.now }
    ensures { result ≡ second_number tree.now i }
{
    tree[i] as usize % PART_ROOM
}
