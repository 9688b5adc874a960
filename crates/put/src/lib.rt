//! Storing the parts of a certificate: marks, numbers, rows of duals, and the bytes of one record.
#![tactic(auto)]

pub mod front;

ghost use Rattle.std.specs.Prelude.{◌+◌, ◌*◌, ◌≤◌, length};
ghost use Rattle.model.specs.Lengths.{subproblem_length};
ghost use Rattle.put.specs.Puts.{Fit, MarkPut, RowPut, RecordPut};

use integers::encode;

// Stores the two bytes of the mark m.
pub(crate) fn put_mark(d: &mut [u8], at: usize, m: &[u8; 2])
    requires { at + 2 ≤ length d.old }
    ensures { MarkPut at m.now d.old d.new }
{
    d[at..at + 2].copy_from_slice(m);
}

// Stores the duals, four bytes each.
fn put_row(d: &mut [u8], at: usize, duals: &[u64])
    requires count_in_bounds { at + 4 * length duals.now ≤ length d.old }
    requires fit { Fit duals.now (length duals.now) }
    ensures { RowPut at (length duals.now) duals.now d.old d.new }
{
    for (i, x) in duals.iter().enumerate() {
        encode(d, at + 4 * i, *x as i32);
    }
}

// Stores a record: its mark, the value w, and the duals of the children and of the neighbours.
pub fn put_record(d: &mut [u8], at: usize, w: i32, children: &[u64], neighbours: &[u64])
    requires l_in_bounds { at + subproblem_length (length children.now) (length neighbours.now) ≤ length d.old }
    requires fit { Fit children.now (length children.now) }
    requires fit_2 { Fit neighbours.now (length neighbours.now) }
    ensures { RecordPut at w children.now (length children.now) neighbours.now (length neighbours.now) d.old d.new }
{
    put_mark(d, at, b"\xC1\x03");
    encode(d, at + 2, w);
    put_row(d, at + 6, children);
    put_row(d, at + 6 + 4 * children.len(), neighbours);
}
