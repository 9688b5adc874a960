//! Why a tree is refused: items 3 to 7 and 25, and 8 to 12 and 26 for the found tree; its count, labels and edge ends.
ghost use Rattle.std.specs.Prelude.{ℕ, ◌+◌, ◌≤◌, ◌<◌, ◌-◌, get_or, eqb, ltb, ◌≡◌, true, ◌&&◌, cond};
ghost use Rattle.foundations.specs.Lists.{every, tab};
ghost use Rattle.model.specs.Bytes.{is_mark, edge_mark};
ghost use Rattle.model.specs.Limits.{vertex_limit};
ghost use Rattle.model.specs.Refusals.{first_of, fault_in};
ghost use Rattle.model.specs.Tree.{count, vertex_label, end_a, end_b, edge_label_at, vertex_mark_of, vertex_start, edge_start, sized, marked, labels_known, ends_low, acyclic, degree, few_edges, tree_item};
ghost use Rattle.trees.specs.Accepted.{Whole, Ends};
ghost use Rattle.formats.specs.TreeItems.{items_from4, items_from5, items_from6};

use crate::marks::is_mark;
use crate::places::{Records, tree_size, with_serials};
use lengths::tree_head_length;
use model::{Limits, TreeFault, VertexTable};
use std::array;

// ---- a tree whose ends are vertices

// The bytes of a tree of n vertices that has the right length, and whose edges end at vertices.
#[derive(Clone, Copy)]
pub struct Tree<'a> {
    pub bytes: &'a [u8],
    pub n: usize,
    pub ghost ends: { Ends bytes.now n },
}

impl<'a> Tree<'a> {
    // Where its records stand.
    pub(crate) fn records(&self) -> Records<'a>
        ensures bytes { result.bytes.now ≡ self.now.bytes.now }
        ensures n { result.n ≡ self.now.n }
    {
        Records {
            bytes: self.bytes,
            n: self.n,
        }
    }

    // One end of edge j, as written first and second.
    pub fn end_a(&self, j: usize) -> u8
        requires j_bound { j + 1 < self.now.n }
        ensures value { result ≡ end_a self.now.bytes.now self.now.n j }
        ensures low { result < self.now.n }
        ensures few { result < vertex_limit }
    {
        self.bytes[self.records().edge_start(j) + 2]
    }

    pub fn end_b(&self, j: usize) -> u8
        requires j_bound { j + 1 < self.now.n }
        ensures value { result ≡ end_b self.now.bytes.now self.now.n j }
        ensures low { result < self.now.n }
        ensures few { result < vertex_limit }
    {
        self.bytes[self.records().edge_start(j) + 3]
    }

    pub fn edge_label(&self, j: usize) -> u8
        requires j_bound { j + 1 < self.now.n }
        ensures { result ≡ edge_label_at self.now.bytes.now self.now.n j }
    {
        self.bytes[self.records().edge_start(j) + 4]
    }

    pub fn vertex_label(&self, v: usize) -> u8
        requires v_lt_n { v < self.now.n }
        ensures { result ≡ vertex_label self.now.bytes.now v }
    {
        self.bytes[self.records().vertex_start(v) + 2]
    }
}

// ---- item 3: length, count and marks

// The count, and the length, which hangs on the head and the first vertex mark.
fn is_sized(s: &[u8]) -> bool
    ensures { result ≡ sized s.now }
{
    if s.len() < tree_head_length() + 2 {
        return false;
    }
    let n = s[2];
    if n == 0 {
        return false;
    }
    (n <= Limits::VERTICES) & (s.len() == tree_size(s, n))
}

// The number of vertices of a tree of the right length.
pub fn vertex_count(s: &[u8]) -> usize
    requires { Whole s.now (count s.now) }
    ensures { result ≡ count s.now }
{
    s[2] as usize
}

impl<'a> Records<'a> {
    // The record of vertex v has the mark of the first.
    fn is_vertex(&self, v: usize) -> bool
        requires v_lt_n { v < self.now.n }
        ensures { result ≡ is_mark self.now.bytes.now (vertex_start self.now.bytes.now v) (vertex_mark_of self.now.bytes.now) }
    {
        let at = self.vertex_start(v);
        if with_serials(self.bytes) {
            is_mark(self.bytes, at, b"\xB1\x07")
        } else {
            is_mark(self.bytes, at, b"\xB1\x02")
        }
    }

    // All are tested, also behind a wrong one: the compiler then tests many at once.
    fn vertices_marked(&self) -> bool
        ensures { result ≡ every (λ v. is_mark self.now.bytes.now (vertex_start self.now.bytes.now v) (vertex_mark_of self.now.bytes.now)) self.now.n }
    {
        let mut ok = true;
        for v in 0..self.n {
            ok &= self.is_vertex(v);
        }
        ok
    }

    fn is_edge(&self, j: usize) -> bool
        requires j_bound { j + 1 < self.now.n }
        ensures { result ≡ is_mark self.now.bytes.now (edge_start self.now.bytes.now self.now.n j) edge_mark }
    {
        is_mark(self.bytes, self.edge_start(j), b"\xB1\x03")
    }

    fn edges_marked(&self) -> bool
        ensures { result ≡ every (λ j. is_mark self.now.bytes.now (edge_start self.now.bytes.now self.now.n j) edge_mark) (self.now.n - 1) }
    {
        (0..self.n - 1).all(|j| self.is_edge(j))
    }

    fn is_marked(&self) -> bool
        ensures { result ≡ marked self.now.bytes.now self.now.n }
    {
        let a = is_mark(self.bytes, 0, b"\xB1\x01");
        let b = self.vertices_marked();
        let c = self.edges_marked();
        a & (b & c)
    }

    // ---- item 4: labels that the table has

    // All are tested, as the marks are.
    fn vertex_labels_known(&self, labels: u8) -> bool
        ensures { result ≡ every (λ v. ltb (vertex_label self.now.bytes.now v) labels) self.now.n }
    {
        let mut ok = true;
        for v in 0..self.n {
            ok &= self.bytes[self.vertex_start(v) + 2] < labels;
        }
        ok
    }

    fn edge_labels_known(&self, labels: u8) -> bool
        ensures { result ≡ every (λ j. ltb (edge_label_at self.now.bytes.now self.now.n j) labels) (self.now.n - 1) }
    {
        (0..self.n - 1).all(|j| self.bytes[self.edge_start(j) + 4] < labels)
    }

    fn are_labels_known(&self, k: u8, l: u8) -> bool
        ensures { result ≡ labels_known self.now.bytes.now self.now.n k l }
    {
        let a = self.vertex_labels_known(k);
        let b = self.edge_labels_known(l);
        a & b
    }

    // ---- item 5: ends below n

    fn ends_low_at(&self, j: usize) -> bool
        requires j_bound { j + 1 < self.now.n }
        ensures { result ≡ (ltb (end_a self.now.bytes.now self.now.n j) self.now.n && ltb (end_b self.now.bytes.now self.now.n j) self.now.n) }
    {
        let at = self.edge_start(j);
        ((self.bytes[at + 2] as usize) < self.n) & ((self.bytes[at + 3] as usize) < self.n)
    }

    fn are_ends_low(&self) -> bool
        ensures { result ≡ ends_low self.now.bytes.now self.now.n }
    {
        (0..self.n - 1).all(|j| self.ends_low_at(j))
    }
}

// ---- item 6: no edge closes a cycle

// The components with `to` in the place of `from`. By a loop: an array's `map` takes forty times the instructions.
fn merged(l: VertexTable, from: u8, to: u8) -> VertexTable
    ensures { result ≡ tab (λ x. cond (eqb (get_or l x 0) from) to (get_or l x 0)) vertex_limit }
{
    let mut r = l;
    for y in &mut r {
        *y = if *y == from { to } else { *y };
    }
    r
}

// Each vertex a component of its own.
fn own_components() -> VertexTable
    ensures { result ≡ tab (λ x. x) vertex_limit }
{
    array::from_fn(|x| x as u8)
}

impl<'a> Tree<'a> {
    fn is_acyclic(&self) -> bool
        ensures { result ≡ acyclic self.now.bytes.now self.now.n }
    {
        let mut l = own_components();
        let edges = self.n - 1;
        for j in 0..edges {
            let x = l[self.end_a(j) as usize];
            let y = l[self.end_b(j) as usize];
            if x == y {
                return false;
            }
            l = merged(l, y, x);
        }
        true
    }

    // ---- item 7: at most eight edges at a vertex

    // How many edges end at each vertex: an edge counts once at each of its ends, and once in all where they are the same.
    pub fn degrees(&self) -> VertexTable
        ensures { result ≡ tab (λ v. degree self.now.bytes.now self.now.n v (self.now.n - 1)) vertex_limit }
    {
        let mut d = [0u8; Limits::ROWS];
        let edges = self.n - 1;
        for j in 0..edges {
            let a = self.end_a(j);
            let b = self.end_b(j);
            d[a as usize] += 1;
            d[b as usize] += u8::from(a != b);
        }
        d
    }

    fn are_edges_few(&self) -> bool
        ensures { result ≡ few_edges self.now.bytes.now self.now.n }
    {
        let d = self.degrees();
        d[..self.n].iter().all(|x| *x <= Limits::DEGREE)
    }

    // ---- the first item that applies

    fn item_from_6(&self) -> Result<(), TreeFault>
        ensures { (first twice : ℕ) → fault_in first twice result ≡ first_of (items_from6 first twice self.now.bytes.now self.now.n) }
    {
        let tree = self.is_acyclic();
        if !tree {
            return Err(TreeFault::Cycle);
        }
        let few = self.are_edges_few();
        if !few {
            return Err(TreeFault::Degree);
        }
        let differ = self.do_serials_differ();
        if !differ {
            return Err(TreeFault::Serials);
        }
        Ok(())
    }
}

impl<'a> Records<'a> {
    fn item_from_5(&self) -> Result<(), TreeFault>
        ensures { (first twice : ℕ) → fault_in first twice result ≡ first_of (items_from5 first twice self.now.bytes.now self.now.n) }
    {
        let low = self.are_ends_low();
        if !low {
            return Err(TreeFault::Ends);
        }
        let tree = Tree {
            bytes: self.bytes,
            n: self.n,
        };
        tree.item_from_6()
    }

    fn item_from_4(&self, k: u8, l: u8) -> Result<(), TreeFault>
        ensures { (first twice : ℕ) → fault_in first twice result ≡ first_of (items_from4 first twice self.now.bytes.now self.now.n k l) }
    {
        let known = self.are_labels_known(k, l);
        if !known {
            return Err(TreeFault::Labels);
        }
        self.item_from_5()
    }
}

// The first of a tree's items that applies to it: 3 to 7 and 25 for the recorded tree, 8 to 12 and 26 for the found one. K and L are the table's numbers
// of labels.
pub fn tree_item(s: &[u8], k: u8, l: u8) -> Result<(), TreeFault>
    ensures { (first twice : ℕ) → fault_in first twice result ≡ tree_item first twice s.now k l }
{
    let right = is_sized(s);
    if !right {
        return Err(TreeFault::Shape);
    }
    let n = vertex_count(s);
    let records = Records { bytes: s, n };
    let marks = records.is_marked();
    if !marks {
        return Err(TreeFault::Shape);
    }
    records.item_from_4(k, l)
}
