//! The length of a record from its mark, by cases (paper 02, [5]), and by name for those who read and write: no record's length is a number anywhere else in
//! the code.
#![tactic(auto)]

ghost use Rattle.std.specs.Prelude.{◌≡◌};
ghost use Rattle.model.specs.Lengths.{tree_head_length, vertex_length, edge_length, table_head_length, vertex_row_length, edge_row_length, serial_vertex_length, certificate_head_length, partner_length, subproblem_length, length_by_mark};

// How long the record with the mark a, b is. A row's length hangs on the table's K or L, that of a subproblem's record on the number of children of u and of neighbours
// of v other than s; the other lengths hang on none of these.
fn length_by_mark(a: u8, b: u8, k: u8, l: u8, children: u8, others: u8) -> Option<usize>
    ensures { result ≡ length_by_mark a b k l children others }
{
    match (a, b) {
        (0xB1, 0x01) => Some(3),
        (0xB1, 0x02) => Some(3),
        (0xB1, 0x03) => Some(5),
        (0xB1, 0x04) => Some(4),
        (0xB1, 0x05) => Some(2 + 4 * usize::from(k)),
        (0xB1, 0x06) => Some(2 + 4 * usize::from(l)),
        (0xB1, 0x07) => Some(7),
        (0xC1, 0x01) => Some(8),
        (0xC1, 0x02) => Some(3),
        (0xC1, 0x03) => Some(6 + 4 * usize::from(children) + 4 * usize::from(others)),
        _ => None,
    }
}

// ---- a record of each kind

pub fn tree_head_length() -> usize
    ensures { result ≡ tree_head_length }
{
    length_by_mark(0xB1, 0x01, 0, 0, 0, 0).unwrap_or(0)
}

pub fn vertex_length() -> usize
    ensures { result ≡ vertex_length }
{
    length_by_mark(0xB1, 0x02, 0, 0, 0, 0).unwrap_or(0)
}

pub fn edge_length() -> usize
    ensures { result ≡ edge_length }
{
    length_by_mark(0xB1, 0x03, 0, 0, 0, 0).unwrap_or(0)
}

pub fn table_head_length() -> usize
    ensures { result ≡ table_head_length }
{
    length_by_mark(0xB1, 0x04, 0, 0, 0, 0).unwrap_or(0)
}

pub fn vertex_row_length(k: u8) -> usize
    ensures { result ≡ vertex_row_length k }
{
    length_by_mark(0xB1, 0x05, k, 0, 0, 0).unwrap_or(0)
}

pub fn edge_row_length(l: u8) -> usize
    ensures { result ≡ edge_row_length l }
{
    length_by_mark(0xB1, 0x06, 0, l, 0, 0).unwrap_or(0)
}

pub fn serial_vertex_length() -> usize
    ensures { result ≡ serial_vertex_length }
{
    length_by_mark(0xB1, 0x07, 0, 0, 0, 0).unwrap_or(0)
}

pub fn certificate_head_length() -> usize
    ensures { result ≡ certificate_head_length }
{
    length_by_mark(0xC1, 0x01, 0, 0, 0, 0).unwrap_or(0)
}

pub fn partner_length() -> usize
    ensures { result ≡ partner_length }
{
    length_by_mark(0xC1, 0x02, 0, 0, 0, 0).unwrap_or(0)
}

pub fn subproblem_length(children: u8, others: u8) -> usize
    ensures { result ≡ subproblem_length children others }
{
    length_by_mark(0xC1, 0x03, 0, 0, children, others).unwrap_or(0)
}
