//! Making the plan: each half reads its own tree once and leaves the other half as it was.
#![tactic(auto)]

ghost use Rattle.std.specs.Prelude.{ℕ, ◌+◌, ◌<◌, ◌≤◌, ◌≡◌, get_or, length};
ghost use Rattle.model.specs.Graph.{neighbour_table};
ghost use Rattle.model.specs.Limits.{vertex_limit, degree_limit, width_limit};
ghost use Rattle.model.specs.Tree.{count};
ghost use Rattle.trees.specs.Accepted.{Sound};
ghost use Rattle.plan.specs.Plan.{plan_rows, Planned};
ghost use Rattle.planning.specs.Making.{TakenPlaces, Starts, place_or, next_of, ChildrenTo, At, Behind, BehindTo};
ghost use Rattle.planning.specs.Parents.{is_later, LaterAt, at_or};
ghost use Rattle.planning.specs.Rows.{RecordedRead, FoundRead, Head, RecordedHalf, FoundHalf, VertexRow, VerticesHere, RecordedMade, FoundMade};

use adjacency::{edge_table, neighbour_table};
use formats::tree::{Tree, vertex_count};
use integers::put_word;
use model::{Limits, PlaceTable, Row, VertexTable};
use plan::{Blocks, Plan};
use trees::{places, postorder};

// The first place of v in a row, or DEGREE.
fn find(row: Row, v: u8) -> u8
    ensures { At row v result }
{
    row.iter().position(|x| *x == v).unwrap_or(Limits::PLACES) as u8
}

// How many places of a row are taken.
fn taken(row: Row) -> u8
    ensures { TakenPlaces row result }
{
    find(row, Limits::NONE)
}

// Where the subproblems of each found vertex begin among those of one recorded vertex.
fn starts(found: &[u8], neighbours: &PlaceTable) -> [u8; Limits::PREFIXES]
    requires sound { Sound found.now }
    requires neighbours_value { neighbours.now ≡ neighbour_table found.now }
    ensures { Starts found.now (count found.now) result }
{
    let n = vertex_count(found);
    let mut s = [0u8; Limits::PREFIXES];
    for v in 0..n {
        let k = taken(neighbours[v]);
        s[v + 1] = s[v] + 1 + k;
    }
    s
}

// The children of a recorded vertex: their number, and in the first places each one's vertex, the edge to it as seen from its parent, and its place.
// Three rows and no row of structs: each is a row of the plan as it stands (blocks CHILD, CHILD_EDGE, CHILD_PLACE).
#[derive(Drop)]
struct Family {
    count: u8,
    vertex: Row,
    edge: Row,
    place: Row,
}

// A vertex's place in the postorder, 255 where w is no vertex.
fn place_or(place: &VertexTable, w: u8) -> u8
    ensures { result ≡ place_or place.now w }
{
    place.get(w as usize).copied().unwrap_or(Limits::NONE)
}

// Of the neighbours in their places: those that come before `own` in the postorder are the children.
fn children(neighbours: Row, edges: Row, place: &VertexTable, own: u8) -> Family
    ensures { ChildrenTo neighbours edges place.now own degree_limit result.count result.edge result.place result.vertex }
{
    let mut vertex = [0u8; Limits::PLACES];
    let mut edge = [0u8; Limits::PLACES];
    let mut at = [0u8; Limits::PLACES];
    let mut c: u8 = 0;
    for i in 0..Limits::PLACES {
        let w = neighbours[i];
        let p = place_or(place, w);
        vertex[c as usize] = w;
        edge[c as usize] = edges[i];
        at[c as usize] = p;
        c += u8::from(p < own);
    }
    Family {
        count: c,
        vertex: vertex,
        edge: edge,
        place: at,
    }
}

// Where the subproblem of x with v as its s stands among those of one recorded vertex, 0 where x is no vertex.
fn behind_one(neighbours: &PlaceTable, starts: &[u8; Limits::PREFIXES], v: u8, x: u8) -> u8
    requires { (y : ℕ) → get_or starts.now y 0 ≤ width_limit }
    ensures { Behind neighbours.now starts.now v x result }
{
    if x < Limits::VERTICES {
        let i = find(neighbours[x as usize], v);
        starts[x as usize] + 1 + i
    } else {
        0
    }
}

// In each place of v's neighbours, where the subproblem behind it stands. By a loop, which costs less than an array's `map`.
fn behind_row(neighbours: &PlaceTable, starts: &[u8; Limits::PREFIXES], v: u8) -> Row
    requires v_lt_vertex_limit { v < vertex_limit }
    requires by_index { (y : ℕ) → get_or starts.now y 0 ≤ width_limit }
    ensures { BehindTo neighbours.now starts.now v degree_limit result }
{
    let row = neighbours[v as usize];
    let mut r = [0u8; Limits::PLACES];
    for j in 0..Limits::PLACES {
        r[j] = behind_one(neighbours, starts, v, row[j]);
    }
    r
}

// w is a vertex that comes after place `own` of the postorder.
fn is_later(place: &VertexTable, w: u8, own: u8) -> bool
    ensures { result ≡ is_later place.now own w }
{
    w < Limits::VERTICES && own < place[w as usize]
}

// The first place of a row whose vertex comes after place `own`, PLACES for none.
fn later_at(row: Row, place: &VertexTable, own: u8) -> usize
    ensures { LaterAt row place.now own result }
{
    row.iter()
        .position(|w| is_later(place, *w, own))
        .unwrap_or(Limits::PLACES)
}

// What stands in place k, 0 where k is no place.
fn at_or(row: Row, k: usize) -> u8
    ensures { result ≡ at_or row k }
{
    row.get(k).copied().unwrap_or(0)
}

// A recorded vertex's first row: its children's number, its place in the postorder, the vertex that stands u-th there, its parent and the
// edge to it.
fn head_of(children: u8, own: u8, at: u8, parent: u8, edge: u8) -> Row
    ensures { Head result children own at parent edge }
{
    let mut head = [0u8; Limits::PLACES];
    head[0] = children;
    head[1] = own;
    head[2] = at;
    head[3] = parent;
    head[4] = edge;
    head
}

// The rows of the recorded tree, from what was read of it.
fn store_recorded(
    plan: &mut Plan,
    recorded: &[u8],
    neighbours: &PlaceTable,
    edges: &PlaceTable,
    order: &VertexTable,
    place: &VertexTable,
)
    requires plan_len { length plan.old ≡ plan_rows }
    requires recorded_read { RecordedRead recorded.now neighbours.now edges.now order.now place.now }
    ensures { RecordedHalf recorded.now plan.old plan.new (count recorded.now) }
{
    let n = vertex_count(recorded);
    for u in 0..n {
        let own = place[u];
        let row = children(neighbours[u], edges[u], place, own);
        let k = later_at(neighbours[u], place, own);
        let above = at_or(neighbours[u], k);
        let above_edge = at_or(edges[u], k);
        let head = head_of(row.count, own, order[u], above, above_edge);
        plan[u] = head;
        let vertex = row.vertex;
        plan[Blocks::CHILD + u] = vertex;
        let edge = row.edge;
        plan[Blocks::CHILD_EDGE + u] = edge;
        let at = row.place;
        plan[Blocks::CHILD_PLACE + u] = at;
    }
}

// The rows of the found tree, from what was read of it.
fn store_found(
    plan: &mut Plan,
    found: &[u8],
    neighbours: &PlaceTable,
    edges: &PlaceTable,
    starts: &[u8; Limits::PREFIXES],
)
    requires plan_len { length plan.old ≡ plan_rows }
    requires found_read { FoundRead found.now neighbours.now edges.now starts.now }
    ensures { FoundHalf found.now plan.old plan.new (count found.now) }
{
    let m = vertex_count(found);
    for v in 0..m {
        let row = neighbours[v];
        let back = behind_row(neighbours, starts, v as u8);
        let mut head = [0u8; Limits::PLACES];
        head[0] = taken(row);
        head[1] = starts[v];
        plan[Blocks::FOUND + v] = head;
        plan[Blocks::NEIGHBOUR + v] = row;
        let edge = edges[v];
        plan[Blocks::NEIGHBOUR_EDGE + v] = edge;
        plan[Blocks::BEHIND + v] = back;
    }
}

// A vertex's own row: its label, and its serial in four bytes.
fn vertex_row(label: u8, serial: u32) -> Row
    ensures { VertexRow label serial result }
{
    let mut row = [0u8; Limits::PLACES];
    row[0] = label;
    put_word(&mut row, 4, serial);
    row
}

// The own rows of a tree's vertices, from row `first` on. All other rows stay.
fn store_vertices(plan: &mut Plan, s: &[u8], first: usize)
    requires plan_len { length plan.old ≡ plan_rows }
    requires sound { Sound s.now }
    requires vertex_limit_bound { first + vertex_limit ≤ plan_rows }
    ensures { VerticesHere s.now first plan.old plan.new (count s.now) }
{
    let n = vertex_count(s);
    let tree = Tree { bytes: s, n };
    for v in 0..n {
        let label = tree.vertex_label(v);
        let serial = tree.serial(v);
        let row = vertex_row(label, serial);
        plan[first + v] = row;
    }
}

// The recorded half. The found half stays.
fn plan_recorded(plan: &mut Plan, recorded: &[u8])
    requires plan_len { length plan.old ≡ plan_rows }
    requires sound { Sound recorded.now }
    ensures { RecordedMade recorded.now plan.old plan.new }
{
    let neighbours = neighbour_table(recorded);
    let mut edges = [[Limits::NONE; Limits::PLACES]; Limits::ROWS];
    edge_table(&mut edges, recorded, &neighbours);
    let o = postorder(&neighbours);
    let order = o.at;
    let at = places(o);
    store_recorded(plan, recorded, &neighbours, &edges, &order, &at);
    store_vertices(plan, recorded, Blocks::RECORDED_VERTEX);
}

// The found half. The recorded half stays.
fn plan_found(plan: &mut Plan, found: &[u8])
    requires plan_len { length plan.old ≡ plan_rows }
    requires sound { Sound found.now }
    ensures { FoundMade found.now plan.old plan.new }
{
    let neighbours = neighbour_table(found);
    let mut edges = [[Limits::NONE; Limits::PLACES]; Limits::ROWS];
    edge_table(&mut edges, found, &neighbours);
    let begins = starts(found, &neighbours);
    store_found(plan, found, &neighbours, &edges, &begins);
    store_vertices(plan, found, Blocks::FOUND_VERTEX);
}

// The plan of two accepted trees, over whatever stood there.
pub fn make(plan: &mut Plan, recorded: &[u8], found: &[u8])
    requires plan_len { length plan.old ≡ plan_rows }
    requires sound { Sound recorded.now }
    requires sound_2 { Sound found.now }
    ensures { Planned recorded.now found.now plan.new }
{
    plan_recorded(plan, recorded);
    plan_found(plan, found);
}
