//! The vertex pairs of a mapping: partners are found vertices, each once, and no pair is forbidden.
ghost use Rattle.std.specs.Prelude.{◌<◌, ◌≡◌};
ghost use Rattle.foundations.specs.Lists.{every};
ghost use Rattle.model.specs.Limits.{vertex_limit};
ghost use Rattle.model.specs.Tree.{count};
ghost use Rattle.model.specs.Mapping.{mapped, vertex_ok};
ghost use Rattle.mappings.specs.Tested.{is_new};

use integers::is_forbidden;
use model::{Limits, Mapping};
use plan::instance::Instance;
use plan::weights::vertex_pair;

// u has a partner.
// 255 stays for none: the bytes are the caller's and item 21 is about them, so an Option for each would be a second copy of the mapping.
pub(crate) fn is_mapped(mapping: &Mapping, u: u8) -> bool
    requires { u < vertex_limit }
    ensures { result ≡ mapped mapping.now u }
{
    mapping[u as usize] != Limits::NONE
}

// No vertex before u has its partner.
fn is_new(mapping: &Mapping, u: u8) -> bool
    requires { u < vertex_limit }
    ensures { result ≡ is_new mapping.now u }
{
    let v = mapping[u as usize];
    (0..u).all(|x| mapping[x as usize] != v)
}

// The partner of u is a found vertex, that of no vertex before u, and the pair is allowed.
fn vertex_ok(on: &Instance, mapping: &Mapping, u: u8) -> bool
    requires u_bound { u < count on.now.recorded.now }
    ensures { result ≡ vertex_ok on.now.table.now on.now.recorded.now on.now.found.now mapping.now u }
{
    let v = mapping[u as usize];
    if v == Limits::NONE {
        return true;
    }
    if on.m() <= v as usize {
        return false;
    }
    let forbidden = is_forbidden(vertex_pair(on.table, on.plan, u, v));
    is_new(mapping, u) & !forbidden
}

// So it is for every recorded vertex.
pub(crate) fn vertices_ok(on: &Instance, mapping: &Mapping) -> bool
    ensures { result ≡ every (vertex_ok on.now.table.now on.now.recorded.now on.now.found.now mapping.now) (count on.now.recorded.now) }
{
    let n = on.n() as u8;
    (0..n).all(|u| vertex_ok(on, mapping, u))
}
