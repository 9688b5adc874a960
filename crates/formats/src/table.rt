//! The weight table: items 1 and 2, and access to a table that passes them. After its head it has two blocks of rows, K vertex rows of K weights and L edge
//! rows of L weights.
ghost use Rattle.std.specs.Prelude.{◌≡◌, ◌+◌, ◌<◌, ◌≤◌, ◌^◌, length};
ghost use Rattle.foundations.specs.Lists.{every};
ghost use Rattle.model.specs.Bytes.{is_mark, int32_at};
ghost use Rattle.model.specs.Refusals.{refusal_in};
ghost use Rattle.model.specs.Weights.{weight_ok};
ghost use Rattle.model.specs.Table.{vertex_labels, edge_labels, vertex_row, edge_row, column, table_sized, table_marked, row_ok, weights_ok, table_item};
ghost use Rattle.formats.specs.Table.{EdgeRowsStart, table_size, vertex_block, edge_block, row_start, BlockIn, RowAt, TableSized};

use lengths::{edge_row_length, table_head_length, vertex_row_length};
use model::{Limits, Refusal};

// A block of rows: where its first row stands, how many rows it has, each of as many weights, and how many bytes a row has.
#[derive(Clone, Copy)]
struct Block {
    start: usize,
    rows: u8,
    row: usize,
}

// Where the edge rows of a table of k vertex labels start.
fn edge_rows_start(k: u8) -> usize
    ensures { EdgeRowsStart k result }
{
    table_head_length() + (k as usize) * vertex_row_length(k)
}

// The length of a table of k vertex labels and l edge labels.
pub(crate) fn table_size(k: u8, l: u8) -> usize
    ensures { result ≡ table_size k l }
{
    edge_rows_start(k) + (l as usize) * edge_row_length(l)
}

// The head's numbers and the length.
fn is_sized(table: &[u8]) -> bool
    ensures { result ≡ table_sized table.now }
{
    if table.len() < table_head_length() {
        return false;
    }
    let k = table[2];
    let l = table[3];
    let k_ok = (1 <= k) & (k <= Limits::VERTEX_LABELS);
    let l_ok = (1 <= l) & (l <= Limits::EDGE_LABELS);
    k_ok & (l_ok & (table.len() == table_size(k, l)))
}

// A table of the right head and length.
#[derive(Clone, Copy)]
pub(crate) struct Table<'a> {
    pub(crate) bytes: &'a [u8],
    pub(crate) ghost sized: { TableSized bytes.now },
}

impl<'a> Table<'a> {
    // K, how many vertex labels there are.
    pub(crate) fn vertex_labels(&self) -> u8
        ensures { result ≡ vertex_labels self.now.bytes.now }
    {
        self.bytes[2]
    }

    // L, how many edge labels there are.
    pub(crate) fn edge_labels(&self) -> u8
        ensures { result ≡ edge_labels self.now.bytes.now }
    {
        self.bytes[3]
    }

    // The K vertex rows, which follow the head.
    fn vertex_rows(&self) -> Rows<'a>
        ensures table { result.table.now ≡ self.now.bytes.now }
        ensures block { result.block ≡ vertex_block self.now.bytes.now }
    {
        let k = self.vertex_labels();
        let block = Block {
            start: table_head_length(),
            rows: k,
            row: vertex_row_length(k),
        };
        Rows {
            table: self.bytes,
            block,
        }
    }

    // The L edge rows, which follow the vertex rows.
    fn edge_rows(&self) -> Rows<'a>
        ensures table { result.table.now ≡ self.now.bytes.now }
        ensures block { result.block ≡ edge_block self.now.bytes.now }
    {
        let k = self.vertex_labels();
        let l = self.edge_labels();
        let block = Block {
            start: edge_rows_start(k),
            rows: l,
            row: edge_row_length(l),
        };
        Rows {
            table: self.bytes,
            block,
        }
    }

    // Item 1, the marks of head and rows.
    fn is_marked(&self) -> bool
        ensures { result ≡ table_marked self.now.bytes.now }
    {
        let head = crate::marks::is_mark(self.bytes, 0, b"\xB1\x04");
        let vertex_rows = self.vertex_rows();
        let vertices = vertex_rows.are_marked(b"\xB1\x05");
        let edge_rows = self.edge_rows();
        let edges = edge_rows.are_marked(b"\xB1\x06");
        head & (vertices & edges)
    }

    // Item 2.
    fn weights_ok(&self) -> bool
        ensures { result ≡ weights_ok self.now.bytes.now }
    {
        let vertex_rows = self.vertex_rows();
        let vertices = vertex_rows.are_ok();
        let edge_rows = self.edge_rows();
        let edges = edge_rows.are_ok();
        vertices & edges
    }
}

// The rows of a block that stands in a table.
#[derive(Clone, Copy)]
struct Rows<'a> {
    table: &'a [u8],
    block: Block,
    ghost inside: { BlockIn table.now block },
}

impl<'a> Rows<'a> {
    // Where row i stands.
    fn at(&self, i: u8) -> usize
        requires i_lt_rows { i < self.now.block.rows }
        ensures { RowAt self.now.block i result }
    {
        self.block.start + (i as usize) * self.block.row
    }

    // Row i has the mark m.
    fn is_marked(&self, i: u8, m: &[u8; 2]) -> bool
        requires i_lt_rows { i < self.now.block.rows }
        ensures { result ≡ is_mark self.now.table.now (row_start self.now.block i) m.now }
    {
        crate::marks::is_mark(self.table, self.at(i), m)
    }

    // Every row has the mark m.
    fn are_marked(&self, m: &[u8; 2]) -> bool
        ensures { result ≡ every (λ i. is_mark self.now.table.now (row_start self.now.block i) m.now) self.now.block.rows }
    {
        (0..self.block.rows).all(|i| self.is_marked(i, m))
    }

    // Every weight may stand in a table.
    fn are_ok(&self) -> bool
        ensures { result ≡ every (λ i. row_ok self.now.table.now (row_start self.now.block i) self.now.block.rows) self.now.block.rows }
    {
        (0..self.block.rows).all(|i| row_ok(self.table, self.at(i), self.block.rows))
    }

    // The weight in column j of row i.
    fn weight(&self, i: u8, j: u8) -> i32
        requires i_lt_rows { i < self.now.block.rows }
        requires j_lt_rows { j < self.now.block.rows }
        ensures { result ≡ int32_at self.now.table.now (column (row_start self.now.block i) j) }
    {
        weight_in_row(self.table, self.at(i), j)
    }
}

// The weight in column j of the row at `row` may stand in a table.
fn entry_ok(table: &[u8], row: usize, j: u8) -> bool
    requires { column row (j + 1) ≤ length table.now }
    ensures { result ≡ weight_ok (int32_at table.now (column row j)) }
{
    integers::weight_ok(weight_in_row(table, row, j))
}

// So may the k weights of the row. All are tested, also behind one that may not: the compiler then tests several at once.
fn row_ok(table: &[u8], row: usize, k: u8) -> bool
    requires { column row k ≤ length table.now }
    ensures { result ≡ row_ok table.now row k }
{
    let mut ok = true;
    for j in 0..k {
        ok &= entry_ok(table, row, j);
    }
    ok
}

// The first of the items 1 and 2 that applies to a table.
pub fn table_item(table: &[u8]) -> Result<(), Refusal>
    ensures { refusal_in result ≡ table_item table.now }
{
    let sized = is_sized(table);
    if !sized {
        return Err(Refusal::TableShape);
    }
    let table = Table { bytes: table };
    let marked = table.is_marked();
    if !marked {
        return Err(Refusal::TableShape);
    }
    let fine = table.weights_ok();
    if !fine {
        return Err(Refusal::TableWeights);
    }
    Ok(())
}

// The weight in column j of the row at `row`.
pub fn weight_in_row(table: &[u8], row: usize, j: u8) -> i32
    requires { column row (j + 1) ≤ length table.now }
    ensures { result ≡ int32_at table.now (column row j) }
{
    integers::int32_at(table, row + 2 + 4 * (j as usize))
}

// Where the row of the recorded vertex label i begins.
pub fn vertex_row_at(table: &[u8], i: u8) -> usize
    requires table_sized { TableSized table.now }
    requires i_bound { i < vertex_labels table.now }
    ensures { result ≡ vertex_row table.now i }
{
    let table = Table { bytes: table };
    let rows = table.vertex_rows();
    rows.at(i)
}

// Where the row of the recorded edge label i begins.
pub fn edge_row_at(table: &[u8], i: u8) -> usize
    requires table_sized { TableSized table.now }
    requires i_bound { i < edge_labels table.now }
    ensures { result ≡ edge_row table.now i }
{
    let table = Table { bytes: table };
    table.edge_rows().at(i)
}

// The weight of the recorded edge label i and the found one j.
pub fn edge_weight_at(table: &[u8], i: u8, j: u8) -> i32
    requires table_sized { TableSized table.now }
    requires i_bound { i < edge_labels table.now }
    requires j_bound { j < edge_labels table.now }
    ensures { result ≡ int32_at table.now (column (edge_row table.now i) j) }
{
    let table = Table { bytes: table };
    let rows = table.edge_rows();
    rows.weight(i, j)
}
