//! Mappings: item 21, whether n bytes are one, tested without paths, and a mapping's exact weight (`weigh`). `vertices` tests the pairs of
//! vertices, `edges` those of edges; a mapping has at most one top, which is a mapped vertex whose parent is not mapped.
#![tactic(auto)]

mod edges;
mod vertices;
pub mod weigh;

ghost use Rattle.std.specs.Prelude.{◌<◌, ◌≤◌, ◌≡◌, length, take};
ghost use Rattle.foundations.specs.Counting.{cnt};
ghost use Rattle.model.specs.Tree.{count};
ghost use Rattle.model.specs.Mapping.{is_top, mapping_ok};

use crate::edges::edges_ok;
use crate::vertices::{is_mapped, vertices_ok};
use model::Mapping;
use plan::instance::Instance;
use plan::parent;

// u is mapped and no parent of it is.
fn is_top(on: &Instance, mapping: &Mapping, u: u8) -> bool
    requires u_bound { u < count on.now.recorded.now }
    ensures { result ≡ is_top on.now.recorded.now mapping.now u }
{
    let here = is_mapped(mapping, u);
    let above = is_mapped(mapping, parent(on.plan, u));
    here & !((u != 0) & above)
}

// How many tops there are.
fn tops(on: &Instance, mapping: &Mapping) -> usize
    ensures { result ≡ cnt (is_top on.now.recorded.now mapping.now) (count on.now.recorded.now) }
{
    let n = on.n() as u8;
    (0..n).filter(|u| is_top(on, mapping, *u)).count()
}

// The first n bytes of `mapping` are a mapping.
pub fn mapping_ok(on: &Instance, mapping: &Mapping) -> bool
    requires recorded_in_bounds { count on.now.recorded.now ≤ length mapping.now }
    ensures { result ≡ mapping_ok on.now.table.now on.now.recorded.now on.now.found.now (take (count on.now.recorded.now) mapping.now) }
{
    vertices_ok(on, mapping) && edges_ok(on, mapping) && tops(on, mapping) <= 1
}
