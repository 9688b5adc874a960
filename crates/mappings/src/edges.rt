//! The edge pairs of a mapping: partners of a vertex and its parent are joined, and no pair of edges is forbidden.
ghost use Rattle.std.specs.Prelude.{◌<◌, ◌≡◌, ◌≢◌, ◌&&◌};
ghost use Rattle.foundations.specs.Lists.{every};
ghost use Rattle.model.specs.Tree.{count};
ghost use Rattle.model.specs.Graph.{joined};
ghost use Rattle.model.specs.Order.{parent};
ghost use Rattle.model.specs.Pairs.{edge_pair};
ghost use Rattle.model.specs.Mapping.{allowed, edge_ok};

use crate::vertices::is_mapped;
use model::Mapping;
use plan::instance::Instance;
use plan::weights::edge_pair;
use plan::{neighbour_edge, parent, parent_edge, slot};

// a and b are joined, and the pair of that edge and the one between u and its parent is allowed: a is to be the parent's partner, b that of u.
fn edge_between(on: &Instance, u: u8, a: u8, b: u8) -> bool
    requires u_bound { (u < count on.now.recorded.now) × (u ≢ 0) }
    ensures { result ≡ (joined on.now.found.now a b && allowed (edge_pair on.now.table.now on.now.recorded.now on.now.found.now (parent on.now.recorded.now u) u a b)) }
{
    if on.m() <= b as usize {
        return false;
    }
    let c = slot(on.plan, b, a);
    if c < 1 {
        return false;
    }
    let i = parent_edge(on.plan, u);
    let j = neighbour_edge(on.plan, b, c - 1);
    let w = edge_pair(on.table, i, j);
    !integers::is_forbidden(w)
}

// Where u and its parent are mapped, their partners are joined, and the pair of edges is allowed.
fn edge_ok(on: &Instance, mapping: &Mapping, u: u8) -> bool
    requires u_bound { u < count on.now.recorded.now }
    ensures { result ≡ edge_ok on.now.table.now on.now.recorded.now on.now.found.now mapping.now u (parent on.now.recorded.now u) }
{
    let w = parent(on.plan, u);
    let here = is_mapped(mapping, u);
    let above = is_mapped(mapping, w);
    let both = here & ((u != 0) & above);
    if !both {
        return true;
    }
    edge_between(on, u, mapping[w as usize], mapping[u as usize])
}

// So it is for every recorded vertex.
pub(crate) fn edges_ok(on: &Instance, mapping: &Mapping) -> bool
    ensures { result ≡ every (λ u. edge_ok on.now.table.now on.now.recorded.now on.now.found.now mapping.now u (parent on.now.recorded.now u)) (count on.now.recorded.now) }
{
    let n = on.n() as u8;
    (0..n).all(|u| edge_ok(on, mapping, u))
}
