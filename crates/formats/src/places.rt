//! Where a tree's records stand, by the kind of its vertex records.
ghost use Rattle.std.specs.Prelude.{◌+◌, ◌≤◌, ◌<◌, length, ◌≡◌};
ghost use Rattle.model.specs.Lengths.{tree_head_length, vertex_length, edge_length};
ghost use Rattle.model.specs.Tree.{with_serials, vertex_size, vertex_start, edge_start, tree_size};
ghost use Rattle.trees.specs.Accepted.{Whole};

use crate::marks::is_mark;
use lengths::{edge_length, serial_vertex_length, tree_head_length, vertex_length};

// The vertex records have serials: the first one's mark says so.
pub(crate) fn with_serials(s: &[u8]) -> bool
    requires { tree_head_length + 1 < length s.now }
    ensures { result ≡ with_serials s.now }
{
    is_mark(s, tree_head_length(), b"\xB1\x07")
}

// The length of a vertex record.
fn vertex_size(s: &[u8]) -> usize
    requires { tree_head_length + 1 < length s.now }
    ensures { result ≡ vertex_size s.now }
{
    if with_serials(s) {
        serial_vertex_length()
    } else {
        vertex_length()
    }
}

// The length of a tree of n vertices.
pub(crate) fn tree_size(s: &[u8], n: u8) -> usize
    requires tree_head_length_in_bounds { tree_head_length + 1 < length s.now }
    requires le_n { 1 ≤ n }
    ensures { result ≡ tree_size s.now n }
{
    let k = n as usize;
    tree_head_length() + vertex_size(s) * k + edge_length() * (k - 1)
}

// The bytes of a tree that has the right length for its number of vertices: as many vertex records, and one edge record fewer.
#[derive(Clone, Copy)]
pub(crate) struct Records<'a> {
    pub(crate) bytes: &'a [u8],
    pub(crate) n: usize,
    pub(crate) ghost whole: { Whole bytes.now n },
}

impl<'a> Records<'a> {
    // Where the record of vertex v starts.
    pub(crate) fn vertex_start(&self, v: usize) -> usize
        requires v_lt_n { v < self.now.n }
        ensures { (result ≡ vertex_start self.now.bytes.now v) × (result + vertex_length ≤ length self.now.bytes.now) }
    {
        tree_head_length() + vertex_size(self.bytes) * v
    }

    // Where the record of edge j starts: the n - 1 edges are the last records, whatever the kind of those before them.
    pub(crate) fn edge_start(&self, j: usize) -> usize
        requires j_bound { j + 1 < self.now.n }
        ensures { (result ≡ edge_start self.now.bytes.now self.now.n j) × (result + edge_length ≤ length self.now.bytes.now) }
    {
        self.bytes.len() - edge_length() * (self.n - 1 - j)
    }
}
