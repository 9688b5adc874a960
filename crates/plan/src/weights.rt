//! The weights of a pair of vertices and of a pair of edges: everything that asks for a pair's weight asks here. What a branch gains.
ghost use Rattle.std.specs.Prelude.{◌<◌, ◌≡◌};
ghost use Rattle.model.specs.Limits.{vertex_limit};
ghost use Rattle.model.specs.Pairs.{apart};
ghost use Rattle.model.specs.Table.{edge_labels, edge_row};
ghost use Rattle.trees.specs.Directions.{label_seen};
ghost use Rattle.formats.specs.Table.{TablePassed};
ghost use Rattle.plan.specs.Plan.{found_vertices, serial_in};
ghost use Rattle.plan.specs.Pairs.{Recorded, RowOf, Weighable, PairWeighs, RowWeighable, RowWeighs, EdgePair, Agreed, GainIs};

use crate::{Blocks, Plan, label, serial};
use formats::table::{edge_row_at, edge_weight_at, vertex_row_at, weight_in_row};
use model::Limits;

// What recorded vertex u has in all its pairs: where the weights of its label begin in the table, and its serial.
#[derive(Clone, Copy)]
pub struct VertexRow {
    pub start: usize,
    pub serial: u32,
}

// That of u, a vertex of the recorded tree.
pub fn vertex_row(table: &[u8], plan: &Plan, u: u8) -> VertexRow
    requires { Recorded table.now plan.now u }
    ensures { RowOf table.now plan.now u result.start result.serial }
{
    let i = label(plan, Blocks::RECORDED_VERTEX, u);
    VertexRow {
        start: vertex_row_at(table, i),
        serial: serial(plan, Blocks::RECORDED_VERTEX, u),
    }
}

// The recorded serial a and that of found vertex v are known and different.
fn serials_apart(plan: &Plan, a: u32, v: u8) -> bool
    requires { v < vertex_limit }
    ensures { result ≡ apart a (serial_in plan.now found_vertices v) }
{
    if a == 0 {
        return false;
    }
    let b = serial(plan, Blocks::FOUND_VERTEX, v);
    (b != 0) & (a != b)
}

// The weight of the pair of a recorded vertex, of which this is the row, and found vertex v, by what the plan says of each: forbidden if their serials
// are apart, else that of their labels.
pub fn vertex_pair_in(table: &[u8], plan: &Plan, of: VertexRow, v: u8) -> i32
    requires { RowWeighable table.now plan.now of.start of.serial v }
    ensures { RowWeighs table.now plan.now of.start of.serial v result }
{
    let j = label(plan, Blocks::FOUND_VERTEX, v);
    let w = weight_in_row(table, of.start, j);
    if serials_apart(plan, of.serial, v) {
        return Limits::FORBIDDEN;
    }
    w
}

// The weight of the pair of recorded vertex u and found vertex v.
pub fn vertex_pair(table: &[u8], plan: &Plan, u: u8, v: u8) -> i32
    requires { Weighable table.now plan.now u v }
    ensures { PairWeighs table.now plan.now u v result }
{
    vertex_pair_in(table, plan, vertex_row(table, plan, u), v)
}

// The weight w of the labels of a recorded edge and a found edge, by what is seen of each from two ends that are partners; forbidden if their directions do
// not agree.
fn agreed(w: i32, i: u8, j: u8) -> i32
    ensures { Agreed i j w result }
{
    let alike = i / Limits::DIRECTED == j / Limits::DIRECTED;
    if alike {
        return w;
    }
    Limits::FORBIDDEN
}

// The weight of the pair of a recorded edge and a found edge, by what is seen of each from two ends that are partners: forbidden if their directions do
// not agree, else that of their labels.
pub fn edge_pair(table: &[u8], i: u8, j: u8) -> i32
    requires table_passed { TablePassed table.now }
    requires i_bound { (label_seen i < edge_labels table.now) × (label_seen j < edge_labels table.now) }
    ensures { EdgePair table.now i j result }
{
    let w = edge_weight_at(table, i % Limits::EDGE_LABELS, j % Limits::EDGE_LABELS);
    agreed(w, i, j)
}

// What a recorded edge has in all its pairs: where the weights of its label begin in the table, and what is seen of it from one of its ends.
#[derive(Clone, Copy)]
pub struct EdgeRow {
    pub start: usize,
    pub seen: u8,
}

// That of an edge of which i is seen.
pub fn edge_row(table: &[u8], i: u8) -> EdgeRow
    requires table_passed { TablePassed table.now }
    requires i_bound { label_seen i < edge_labels table.now }
    ensures seen { result.seen ≡ i }
    ensures start { result.start ≡ edge_row table.now (label_seen i) }
{
    EdgeRow {
        start: edge_row_at(table, i % Limits::EDGE_LABELS),
        seen: i,
    }
}

// The same as `edge_pair`, by the recorded edge's row: for many found edges the row is found once.
pub fn edge_pair_in(table: &[u8], of: EdgeRow, j: u8) -> i32
    requires table_passed { TablePassed table.now }
    requires start_value { of.start ≡ edge_row table.now (label_seen of.seen) }
    requires bounds { (label_seen of.seen < edge_labels table.now) × (label_seen j < edge_labels table.now) }
    ensures { EdgePair table.now of.seen j result }
{
    let w = weight_in_row(table, of.start, j % Limits::EDGE_LABELS);
    agreed(w, of.seen, j)
}

// What an edge weight and a value gain. The forbidden number gains nothing: its sum with any number is below 0.
pub fn gain_of(edge: i32, value: i32) -> u64
    ensures { GainIs edge value result }
{
    integers::gain(edge, value)
}
