//! The exact weight of a mapping: its vertex pairs and its edge pairs added up.
ghost use Rattle.std.specs.Prelude.{◌+◌, ◌-◌, ◌<◌, ◌≤◌, ◌≡◌, length, take, ◌+ℤ◌};
ghost use Rattle.model.specs.Tree.{count, end_a, end_b};
ghost use Rattle.model.specs.Mapping.{IsMapping, vertex_pairs, edge_term, edge_pairs, weight};
ghost use Rattle.mappings.specs.WeighLaws.{Ground, SumTo, SmallSum, vertex_term};

use formats::tree::Tree;
use model::Limits;
use plan::instance::Instance;
use plan::weights::{edge_pair, vertex_pair};
use plan::{neighbour_edge, slot};

// Two numbers that together are no more than a mapping can weigh: their sum fits.
fn add(s: i32, t: i32) -> i32
    requires { SmallSum s t }
    ensures { result ≡ s +ℤ t }
{
    s + t
}

// The weight of u's pair, 0 where u has no partner.
fn vertex_term(on: &Instance, mapping: &[u8], u: u8) -> i32
    requires ground { Ground on.now.table.now on.now.recorded.now on.now.found.now mapping.now }
    requires u_bound { u < count on.now.recorded.now }
    ensures { SumTo 1 (vertex_term on.now.table.now on.now.recorded.now on.now.found.now (take (count on.now.recorded.now) mapping.now) u) result }
{
    let v = mapping[u as usize];
    if v == Limits::NONE {
        return 0;
    }
    vertex_pair(on.table, on.plan, u, v)
}

// The weight of all vertex pairs.
fn sum_vertices(on: &Instance, mapping: &[u8]) -> i32
    requires ground { Ground on.now.table.now on.now.recorded.now on.now.found.now mapping.now }
    ensures { SumTo (count on.now.recorded.now) (vertex_pairs on.now.table.now on.now.recorded.now on.now.found.now (take (count on.now.recorded.now) mapping.now)) result }
{
    let n = on.n() as u8;
    let mut sum: i32 = 0;
    for u in 0..n {
        sum = add(sum, vertex_term(on, mapping, u));
    }
    sum
}

// The weight of the pair of recorded edge j, 0 where an end has no partner.
fn edge_term(on: &Instance, mapping: &[u8], j: usize) -> i32
    requires ground { Ground on.now.table.now on.now.recorded.now on.now.found.now mapping.now }
    requires j_bound { j + 1 < count on.now.recorded.now }
    ensures { SumTo 1 (edge_term on.now.table.now on.now.recorded.now on.now.found.now (take (count on.now.recorded.now) mapping.now) (end_a on.now.recorded.now (count on.now.recorded.now) j) (end_b on.now.recorded.now (count on.now.recorded.now) j)) result }
{
    let n = on.n();
    let tree = Tree {
        bytes: on.recorded,
        n,
    };
    let a = mapping[tree.end_a(j) as usize];
    let b = mapping[tree.end_b(j) as usize];
    if a == Limits::NONE {
        return 0;
    }
    if b == Limits::NONE {
        return 0;
    }
    let c = slot(on.plan, a, b);
    let i = tree.edge_label(j);
    let k = neighbour_edge(on.plan, a, c - 1);
    edge_pair(on.table, i, k)
}

// The weight of all edge pairs.
fn sum_edges(on: &Instance, mapping: &[u8]) -> i32
    requires ground { Ground on.now.table.now on.now.recorded.now on.now.found.now mapping.now }
    ensures { SumTo (count on.now.recorded.now - 1) (edge_pairs on.now.table.now on.now.recorded.now on.now.found.now (take (count on.now.recorded.now) mapping.now)) result }
{
    let edges = on.n() - 1;
    let mut sum: i32 = 0;
    for j in 0..edges {
        sum = add(sum, edge_term(on, mapping, j));
    }
    sum
}

// The weight of the mapping in the first bytes of `mapping`.
pub fn weigh(on: &Instance, mapping: &[u8]) -> i32
    requires recorded_in_bounds { count on.now.recorded.now ≤ length mapping.now }
    requires mapping { IsMapping on.now.table.now on.now.recorded.now on.now.found.now (take (count on.now.recorded.now) mapping.now) }
    ensures { result ≡ weight on.now.table.now on.now.recorded.now on.now.found.now (take (count on.now.recorded.now) mapping.now) }
{
    add(sum_vertices(on, mapping), sum_edges(on, mapping))
}
