// Threading a query's parts: what is to be done after each.
#![tactic(auto)]

ghost use Rattle.walk.specs.Parts.{part_of, listed, Threaded};
ghost use Rattle.walk.specs.Threading.{PartAmong, PartLinked, Threadable};

use query::kinds;
use query::parts::{first_number, kind_of};

// Writes what is to be done after the parts of the part i, whose own place is written already.
fn thread_part(tree: &[u32], n: usize, i: usize, next: &mut [u16])
    requires { PartAmong tree.now next.old n i }
    ensures { PartLinked tree.now next.old next.new n i }
{
    let kind = kind_of(tree, i);
    let left = first_number(tree, i);
    let after = next[i];
    if kind == kinds::NESTED {
        next[i - 1] = n as u16;
        return;
    }
    if kind == kinds::STAR {
        next[i - 1] = i as u16;
        return;
    }
    if kind == kinds::SEQUENCE {
        next[left] = (i - 1) as u16;
        next[i - 1] = after;
        return;
    }
    if kind == kinds::UNION {
        next[left] = after;
        next[i - 1] = after;
    }
}

// Writes what is to be done after each of the n parts, from the root down: parents before their parts.
pub fn thread(tree: &[u32], n: usize, next: &mut [u16])
    requires { Threadable tree.now next.old n }
    ensures { Threaded (part_of tree.now) (listed next.new) n }
{
    next[n - 1] = n as u16;
    for i in (0..n).rev() {
        thread_part(tree, n, i, next);
    }
}
