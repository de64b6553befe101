// The triples by subject: each node's first triple and how many it has.
ghost use Rattle.std.specs.Prelude.{length, ◌≡◌, ◌+◌, ◌*◌, ◌≤◌};
ghost use Rattle.index.specs.Subjects.{Indexed, SubjectsSplit};
ghost use Rattle.index.specs.Triples.{GraphFits, SubjectsRise};
ghost use Rattle.meaning.specs.Limits.{index_width};

use meaning::{INDEX_WIDTH, TRIPLE_WIDTH};

// Where the triples of the subject n end, which begin at k if there are any.
fn subject_end(triples: &[u16], edges: usize, n: usize, k: usize) -> usize
    requires { (edges * 3 ≤ length triples.now) × SubjectsRise triples.now edges × SubjectsSplit triples.now edges n k }
    ensures { (k ≤ result) × SubjectsSplit triples.now edges (n + 1) result }
{
    for end in k..edges {
        if triples[end * TRIPLE_WIDTH] as usize != n {
            return end;
        }
    }
    edges
}

// The first of the triples from k up to `end`, 0 where there is none.
fn first_of(k: usize, end: usize) -> usize
    ensures { (result ≤ k) × (end ≡ k → result ≡ 0) × ((end ≡ k → ⊥) → result ≡ k) }
{
    if end == k {
        return 0;
    }
    k
}

// Writes each node's first triple as subject and how many it has, 0 and 0 where it has none.
pub fn index_subjects(triples: &[u16], nodes: usize, edges: usize, index: &mut [u16])
    requires { GraphFits nodes edges triples.now × SubjectsRise triples.now edges × (nodes * index_width ≤ length index.old) }
    ensures { Indexed triples.now nodes edges index.old index.new }
{
    let mut k = 0;
    for n in 0..nodes {
        let end = subject_end(triples, edges, n, k);
        index[n * INDEX_WIDTH] = first_of(k, end) as u16;
        index[n * INDEX_WIDTH + 1] = (end - k) as u16;
        k = end;
    }
}
