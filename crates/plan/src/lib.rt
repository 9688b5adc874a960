//! The plan of two trees: what a call looks up in them, as rows of eight bytes, made once (crates/planning). A recorded half and a found half, each of
//! its own tree alone. `specs/Plan.antt` says where a number stands and what it is; nothing above knows where. Beside it the weights of pairs
//! (`weights`) and the numbers that follow from the vertex counts (`counts`).
#![tactic(auto)]

pub mod counts;
pub mod instance;
pub mod weights;

ghost use Rattle.std.specs.Prelude.{◌+◌, ◌<◌, ◌≤◌, ◌≡◌};
ghost use Rattle.model.specs.Limits.{vertex_limit, degree_limit};
ghost use Rattle.plan.specs.Plan.{plan_rows, label_in, serial_in, child_count_in, place_in, order_in, parent_in, parent_edge_in, child_in, child_edge_in, child_place_in, degree_in, offset_in, neighbour_in, neighbour_edge_in, behind_in};
ghost use Rattle.plan.specs.Numbers.{Located, SlotAt};

use model::Limits;

// Where the blocks of rows begin, a row for each vertex in each: the recorded tree's first rows begin at 0. For the accessors here, and for `planning`,
// which fills the rows.
#[derive(Drop)]
pub struct Blocks {}

impl Blocks {
    pub const CHILD: usize = Limits::ROWS;

    pub const CHILD_EDGE: usize = 2 * Limits::ROWS;

    pub const CHILD_PLACE: usize = 3 * Limits::ROWS;

    pub const RECORDED_VERTEX: usize = 4 * Limits::ROWS;

    pub const FOUND: usize = 5 * Limits::ROWS;

    pub const NEIGHBOUR: usize = 6 * Limits::ROWS;

    pub const NEIGHBOUR_EDGE: usize = 7 * Limits::ROWS;

    pub const BEHIND: usize = 8 * Limits::ROWS;

    pub const FOUND_VERTEX: usize = 9 * Limits::ROWS;
    // The rows of all blocks.
    pub const ALL: usize = 10 * Limits::ROWS;
}

// The plan: rows of a place for each of a vertex's children or neighbours, or of what belongs to the vertex itself.
pub type Plan = [[u8; Limits::PLACES]; Blocks::ALL];

// The label of vertex x of the tree whose vertices' own rows begin at `first`.
fn label(plan: &Plan, first: usize, x: u8) -> u8
    requires { first + x < plan_rows }
    ensures { result ≡ label_in plan.now first x }
{
    plan[first + (x as usize)][0]
}

// Its serial, 0 for an unknown one.
fn serial(plan: &Plan, first: usize, x: u8) -> u32
    requires { first + x < plan_rows }
    ensures { result ≡ serial_in plan.now first x }
{
    let row = plan[first + (x as usize)];
    integers::unsigned_of(row[4], row[5], row[6], row[7])
}

// How many children recorded vertex u has.
pub fn child_count(plan: &Plan, u: u8) -> usize
    requires { u < vertex_limit }
    ensures { result ≡ child_count_in plan.now u }
{
    usize::from(plan[u as usize][0])
}

// Its place in the postorder.
pub fn place(plan: &Plan, u: u8) -> usize
    requires { u < vertex_limit }
    ensures { result ≡ place_in plan.now u }
{
    usize::from(plan[u as usize][1])
}

// The vertex in place i of the postorder.
pub fn in_order(plan: &Plan, i: usize) -> u8
    requires { i < vertex_limit }
    ensures { result ≡ order_in plan.now i }
{
    plan[i][2]
}

// The parent of u; the root is its own.
pub fn parent(plan: &Plan, u: u8) -> u8
    requires { u < vertex_limit }
    ensures { result ≡ parent_in plan.now u }
{
    plan[u as usize][3]
}

// The edge to it as seen from u: label and direction in one number.
pub fn parent_edge(plan: &Plan, u: u8) -> u8
    requires { u < vertex_limit }
    ensures { result ≡ parent_edge_in plan.now u }
{
    plan[u as usize][4]
}

// The i-th child of u.
pub fn child(plan: &Plan, u: u8, i: usize) -> u8
    requires { (u < vertex_limit) × (i < degree_limit) }
    ensures { result ≡ child_in plan.now u i }
{
    plan[Blocks::CHILD + (u as usize)][i]
}

// The edge to it as seen from u.
pub fn child_edge(plan: &Plan, u: u8, i: usize) -> u8
    requires { (u < vertex_limit) × (i < degree_limit) }
    ensures { result ≡ child_edge_in plan.now u i }
{
    plan[Blocks::CHILD_EDGE + (u as usize)][i]
}

// Its place in the postorder.
pub fn child_place(plan: &Plan, u: u8, i: usize) -> usize
    requires { (u < vertex_limit) × (i < degree_limit) }
    ensures { result ≡ child_place_in plan.now u i }
{
    usize::from(plan[Blocks::CHILD_PLACE + (u as usize)][i])
}

// How many neighbours found vertex v has.
pub fn degree(plan: &Plan, v: u8) -> usize
    requires { v < vertex_limit }
    ensures { result ≡ degree_in plan.now v }
{
    usize::from(plan[Blocks::FOUND + (v as usize)][0])
}

// Where its subproblems begin among those of one recorded vertex.
pub fn offset(plan: &Plan, v: u8) -> usize
    requires { v < vertex_limit }
    ensures { result ≡ offset_in plan.now v }
{
    usize::from(plan[Blocks::FOUND + (v as usize)][1])
}

// The j-th neighbour of v.
pub fn neighbour(plan: &Plan, v: u8, j: usize) -> u8
    requires { (v < vertex_limit) × (j < degree_limit) }
    ensures { result ≡ neighbour_in plan.now v j }
{
    plan[Blocks::NEIGHBOUR + (v as usize)][j]
}

// The edge to it as seen from v.
pub fn neighbour_edge(plan: &Plan, v: u8, j: usize) -> u8
    requires { (v < vertex_limit) × (j < degree_limit) }
    ensures { result ≡ neighbour_edge_in plan.now v j }
{
    plan[Blocks::NEIGHBOUR_EDGE + (v as usize)][j]
}

// Where the subproblem behind it stands among those of one recorded vertex.
pub fn behind(plan: &Plan, v: u8, j: usize) -> usize
    requires { (v < vertex_limit) × (j < degree_limit) }
    ensures { result ≡ behind_in plan.now v j }
{
    usize::from(plan[Blocks::BEHIND + (v as usize)][j])
}

// The last of the first m found vertices whose subproblems begin at `rest` or before; those of `first` do.
pub fn locate(plan: &Plan, m: usize, rest: usize, first: u8) -> u8
    requires first_lt_m { (first < m) × (m ≤ vertex_limit) }
    requires first_bound { 0 < first → offset_in plan.now first ≤ rest }
    ensures { Located (offset_in plan.now) m rest result }
{
    let last = (m - 1) as u8;
    for v in first..last {
        if rest < offset(plan, v + 1) {
            return v;
        }
    }
    last
}

// Which choice s is for v: one more than its place for a neighbour, 0 for any other.
pub fn slot(plan: &Plan, v: u8, s: u8) -> usize
    requires v_lt_vertex_limit { v < vertex_limit }
    requires v_bound { degree_in plan.now v ≤ degree_limit }
    ensures { SlotAt plan.now v s result }
{
    match (0..degree(plan, v)).position(|j| neighbour(plan, v, j) == s) {
        Some(j) => j + 1,
        None => 0,
    }
}
