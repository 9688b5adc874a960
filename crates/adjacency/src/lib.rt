//! Neighbours as a row of places for each vertex, and in the same places what is seen of the edges to them: label and direction in one number.
#![tactic(auto)]

ghost use Rattle.std.specs.Prelude.{◌<◌, min, replicate, ◌≡◌};
ghost use Rattle.foundations.specs.Lists.{tab};
ghost use Rattle.model.specs.Limits.{edge_label_limit, vertex_limit, degree_limit, no_vertex};
ghost use Rattle.model.specs.Tree.{count};
ghost use Rattle.model.specs.Graph.{neighbour_table};
ghost use Rattle.trees.specs.Accepted.{Ends, Sound};
ghost use Rattle.trees.specs.Directions.{from_second, seen_table};
ghost use Rattle.adjacency.specs.Insertion.{carried, put_in};
ghost use Rattle.adjacency.specs.NeighbourSteps.{Once, edge_in};

use formats::tree::{Tree, vertex_count};
use model::{Limits, PlaceTable, Row};

// The greater is carried on, and `NONE` where the two are the same.
fn carry(x: u8, c: u8) -> u8
    ensures { result ≡ carried x c }
{
    if x == c {
        return Limits::NONE;
    }
    x.max(c)
}

// An ascending row with w in its place, unless it has w; what is carried past the last place falls out. Where nothing is carried, the rest stays.
fn put_in(row: Row, w: u8) -> Row
    ensures { result ≡ put_in w row }
{
    let mut r = row;
    let mut c = w;
    for i in 0..Limits::PLACES {
        if c == Limits::NONE {
            return r;
        }
        let x = r[i];
        r[i] = x.min(c);
        c = carry(x, c);
    }
    r
}

// The neighbours of every vertex of an accepted tree: each edge puts either end into the row of the other.
// Free places are NONE and no Option: the definition `neighbour_table` has no_vertex there.
pub fn neighbour_table(s: &[u8]) -> PlaceTable
    requires { Ends s.now (count s.now) }
    ensures { result ≡ neighbour_table s.now }
{
    let n = vertex_count(s);
    let tree = Tree { bytes: s, n };
    let mut t = [[Limits::NONE; Limits::PLACES]; Limits::ROWS];
    let edges = n - 1;
    for j in 0..edges {
        let a = tree.end_a(j);
        let b = tree.end_b(j);
        let p = put_in(t[a as usize], b);
        t[a as usize] = p;
        let q = put_in(t[b as usize], a);
        t[b as usize] = q;
    }
    t
}

// What is seen of edges in a row's places, with c in the place of w, which has one at the most.
fn edge_in(edges: Row, names: Row, w: u8, c: u8) -> Row
    requires { Once w names }
    ensures { result ≡ tab (edge_in w c names edges) degree_limit }
{
    let mut r = edges;
    if let Some(i) = names.iter().position(|x| *x == w) {
        r[i] = c;
    }
    r
}

// What is seen of an edge with label l from its end written second; from the first it is the label.
fn from_second(l: u8) -> u8
    requires { l < edge_label_limit }
    ensures { result ≡ from_second l }
{
    let undirected = l < Limits::DIRECTED;
    if undirected {
        return l;
    }
    l + Limits::EDGE_LABELS
}

// The edges to every vertex's neighbours as seen from the vertex, in the neighbours' places, into a table of free places.
pub fn edge_table(t: &mut PlaceTable, s: &[u8], neighbours: &PlaceTable)
    requires t_value { t.old ≡ replicate vertex_limit (replicate degree_limit no_vertex) }
    requires sound { Sound s.now }
    requires neighbours_value { neighbours.now ≡ neighbour_table s.now }
    ensures { t.new ≡ seen_table s.now }
{
    let n = vertex_count(s);
    let tree = Tree { bytes: s, n };
    let edges = n - 1;
    for j in 0..edges {
        let a = tree.end_a(j);
        let b = tree.end_b(j);
        let l = tree.edge_label(j);
        let c = from_second(l);
        let q = edge_in(t[b as usize], neighbours[b as usize], a, c);
        t[b as usize] = q;
        let p = edge_in(t[a as usize], neighbours[a as usize], b, l);
        t[a as usize] = p;
    }
}
