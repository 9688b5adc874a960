//! One subproblem from the work numbers before it: the gains of its branches, and what their heaviest matching matches. The work
//! numbers may be any: a gain is below 2^32, and so eight of them are far below the matching's limit.
ghost use Rattle.std.specs.Prelude.{◌+◌, ◌<◌, ◌≡◌, length, replicate, MatchOption};
ghost use Rattle.plan.specs.Pairs.{gain_at, RowFilled, Filled};
ghost use Rattle.plan.specs.Plan.{neighbour_in, Lent, Pair};
ghost use Rattle.solver.specs.Branches.{SharedOf};
ghost use Rattle.solver.specs.Choice.{ChoiceAt};
ghost use Rattle.solver.specs.Mates.{name_or, Mates};
ghost use Rattle.assignment.specs.State.{Sized, place_or};
ghost use Rattle.model.specs.Values.{Subproblem, recalled};
ghost use Rattle.assignment.specs.Matching.{cell, out_of};
ghost use Rattle.model.specs.Tree.{count};
ghost use Rattle.model.specs.Graph.{neighbours};
ghost use Rattle.model.specs.Limits.{degree_limit, vertex_limit, pair_limit};
ghost use Rattle.model.specs.Order.{children};

use assignment::{Assignment, Counts, Matrix};
use model::{Gains, Limits, Row};
use plan::counts::width_of;
use plan::instance::Instance;
use plan::weights::{VertexRow, edge_pair_in, edge_row, gain_of, vertex_row};
use plan::{
    Plan, behind, child_count, child_edge, child_place, degree, neighbour, neighbour_edge, slot,
};

// What solving works in: the counts of its searches, and the gains of one pair of vertices at a time.
#[derive(Drop)]
pub struct Scratch {
    pub counts: Counts,
    pub gains: Gains,
}

impl Scratch {
    // Nothing counted, no gains.
    pub fn new() -> Scratch
        ensures { result.counts ≡ replicate (pair_limit + 1) 0 }
    {
        Scratch {
            counts: [0u64; Limits::PAIRS + 1],
            gains: [0u64; Limits::PAIRS],
        }
    }
}

// The three vertices of a subproblem: recorded vertex u, found vertex v, and s, which is v or the neighbour of v that is left out.
#[derive(Clone, Copy)]
pub struct Vertices {
    pub u: u8,
    pub v: u8,
    pub s: u8,
}

// What the pairs of recorded vertex u with any v share: how many children u has, how many work numbers stand for each recorded
// vertex, where the weights of u's label begin in the table, and its serial.
#[derive(Clone, Copy)]
pub struct Shared {
    pub u: u8,
    pub count: usize,
    pub width: usize,
    pub row: VertexRow,
}

// That of u, a vertex of the recorded tree.
pub fn shared_of(on: &Instance, u: u8) -> Shared
    requires u_bound { u < count on.now.recorded.now }
    ensures { (result.u ≡ u) × (SharedOf on.now.table.now on.now.recorded.now on.now.found.now on.now.plan.now result) }
{
    Shared {
        u,
        count: child_count(on.plan, u),
        width: width_of(on.found),
        row: vertex_row(on.table, on.plan, u),
    }
}

// The gains of u's i-th child with each neighbour of v, as row i of the table.
fn gain_row(g: &mut Gains, on: &Instance, work: &[i32], of: Shared, v: u8, i: usize)
    requires lent { Lent on.now.recorded.now on.now.found.now work.now }
    requires pair { Pair on.now.recorded.now on.now.found.now of.u v }
    requires shared_of { SharedOf on.now.table.now on.now.recorded.now on.now.found.now on.now.plan.now of }
    requires i_in_bounds { i < length (children on.now.recorded.now of.u) }
    ensures { RowFilled (length (neighbours on.now.found.now v)) i (gain_at on.now.table.now on.now.recorded.now on.now.found.now (recalled on.now.recorded.now on.now.found.now work.now) of.u v i) g.old g.new }
{
    let u = of.u;
    // Named here, and the row found once: the loop would read them again after each gain that it stores.
    let table = on.table;
    let plan = on.plan;
    let base = child_place(plan, u, i) * of.width;
    let row = edge_row(table, child_edge(plan, u, i));
    let l = degree(plan, v);
    for j in 0..l {
        let e = edge_pair_in(table, row, neighbour_edge(plan, v, j));
        let q = gain_of(e, work[base + behind(plan, v, j)]);
        g[i * Limits::PLACES + j] = q;
    }
}

// The gains of u's children with v's neighbours, child i with neighbour j at i * PLACES + j.
pub fn gains(g: &mut Gains, on: &Instance, work: &[i32], of: Shared, v: u8)
    requires lent { Lent on.now.recorded.now on.now.found.now work.now }
    requires pair { Pair on.now.recorded.now on.now.found.now of.u v }
    requires shared_of { SharedOf on.now.table.now on.now.recorded.now on.now.found.now on.now.plan.now of }
    ensures { Filled (length (children on.now.recorded.now of.u)) (length (neighbours on.now.found.now v)) (gain_at on.now.table.now on.now.recorded.now on.now.found.now (recalled on.now.recorded.now on.now.found.now work.now) of.u v) g.new }
{
    let k = of.count;
    for i in 0..k {
        gain_row(g, on, work, of, v, i);
    }
}

// The neighbour of v in column p, 255 where there is none: a row of mates is bytes, of which `ChoiceAt` speaks, and so is the mapping.
fn name_or(plan: &Plan, v: u8, p: Option<usize>) -> u8
    requires v_lt_vertex_limit { v < vertex_limit }
    requires column { MatchOption p (Unit {0}) (λ j. j < degree_limit) }
    ensures { result ≡ name_or (neighbour_in plan.now v) (place_or p) }
{
    match p {
        Some(j) => neighbour(plan, v, j),
        None => Limits::NONE,
    }
}

// The neighbour of v that each of k rows is matched with for choice c, 255 for none. A matched pair without gain is no pair. What the
// counts held does not matter.
fn mates(scratch: &mut Scratch, k: usize, l: usize, c: usize, plan: &Plan, v: u8) -> Row
    requires sized { Sized k l (cell scratch.old.gains) }
    requires v_lt_vertex_limit { v < vertex_limit }
    ensures { Mates k l (out_of c (cell scratch.old.gains)) (neighbour_in plan.now v) result }
{
    scratch.counts = [0u64; Limits::PAIRS + 1];
    let g = &scratch.gains;
    let matrix = Matrix {
        gains: g,
        rows: k,
        columns: l,
    };
    let mut solution = Assignment::EMPTY;
    assignment::solve_without(&mut scratch.counts, &matrix, c, &mut solution);
    let m = solution.column_of;
    let mut r = [Limits::NONE; Limits::PLACES];
    for i in 0..k {
        let p = assignment::partner(g, l, c, &m, i);
        r[i] = name_or(plan, v, p);
    }
    r
}

// For each child of u in its place a found vertex that it is paired with below (u, v, s), or 255. The scratch space is lent for
// the work, whatever stood there.
pub fn choice(scratch: &mut Scratch, on: &Instance, work: &[i32], at: Vertices) -> Row
    requires lent { Lent on.now.recorded.now on.now.found.now work.now }
    requires subproblem { Subproblem on.now.recorded.now on.now.found.now at.u at.v at.s }
    ensures { ChoiceAt on.now.table.now on.now.recorded.now on.now.found.now work.now at.u at.v at.s result }
{
    let of = shared_of(on, at.u);
    let l = degree(on.plan, at.v);
    let c = slot(on.plan, at.v, at.s);
    gains(&mut scratch.gains, on, work, of, at.v);
    mates(scratch, of.count, l, c, on.plan, at.v)
}
