// A pair of nodes as one number.
ghost use Rattle.std.specs.Prelude.{◌≡◌, ◌<◌};
ghost use Rattle.reached.specs.Keys.{pair_from, pair_key, pair_keys, pair_to};
ghost use Rattle.meaning.specs.Limits.{max_nodes};

use meaning::MAX_NODES;

pub fn pair_key(from: usize, to: usize) -> u32
    requires { (from < max_nodes) × (to < max_nodes) }
    ensures { result ≡ pair_key from to }
{
    (from * MAX_NODES + to) as u32
}

// Where the pair begins.
pub fn pair_from(key: u32) -> u16
    requires { key < pair_keys }
    ensures { result ≡ pair_from key }
{
    (key as usize / MAX_NODES) as u16
}

// Where it ends.
pub fn pair_to(key: u32) -> u16
    ensures { result ≡ pair_to key }
{
    (key as usize % MAX_NODES) as u16
}
