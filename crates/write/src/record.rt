//! The records of a certificate, each where the one before it ends: that of a subproblem, those of a pair of vertices, of a recorded vertex, and all in order.
ghost use Rattle.std.specs.Prelude.{ℕ, ◌+◌, ◌*◌, ◌≤◌, ◌<◌, ◌≡◌, length};
ghost use Rattle.model.specs.Lengths.{subproblem_length};
ghost use Rattle.model.specs.Limits.{degree_limit};
ghost use Rattle.model.specs.Tree.{count};
ghost use Rattle.model.specs.Order.{offset, width, subproblems};
ghost use Rattle.model.specs.Certificate.{certificate_length, record_at};
ghost use Rattle.records.specs.Others.{others_of, column_in};
ghost use Rattle.write.specs.Frames.{OthersRow, OneFits, OnePut};
ghost use Rattle.write.specs.Records.{Full, RecordsLeft, Walked};

use duals::{duals_of, pair_gains};
use lengths::subproblem_length;
use model::{Limits, WideRow};
use plan::counts::width_of;
use plan::instance::Instance;
use plan::weights::vertex_pair;
use plan::{child_count, degree, in_order, offset as offset_of};
use put::put_record;
use records::{column, others_of, records_begin};

// The duals of the l neighbours other than the q-th choice of s, in order.
fn others_row(x: &[u64], l: usize, q: usize) -> WideRow
    requires l_le_degree_limit { l ≤ degree_limit }
    requires l_in_bounds { l ≤ length x.now }
    requires by_index { (j : ℕ) → j < l → column_in q j < length x.now }
    ensures { OthersRow l q x.now result }
{
    let mut r = [0u64; Limits::PLACES];
    for j in 0..l {
        let p = column(q, j);
        r[j] = x[p];
    }
    r
}

// Stores the record at `at`: the value, the duals of the children, and those of the neighbours but the q-th choice of s. Gives the place after it.
fn put_one(
    certificate: &mut [u8],
    at: usize,
    value: i32,
    children: &[u64],
    neighbours: &[u64],
    q: usize,
) -> usize
    requires one_fits { OneFits children.now neighbours.now (length children.now) (length neighbours.now) q }
    requires q_in_bounds { at + subproblem_length (length children.now) (others_of (length neighbours.now) q) ≤ length certificate.old }
    ensures { OnePut at value children.now (length children.now) neighbours.now (length neighbours.now) q certificate.old certificate.new result }
{
    let k = children.len();
    let d = neighbours.len();
    let l = others_of(d, q);
    let others = others_row(neighbours, l, q);
    put_record(certificate, at, value, children, &others[..l]);
    at + subproblem_length(k as u8, l as u8)
}

// Stores the records of the i-th vertex in postorder and v from `at` on, one for each choice of s. Gives the place after the last.
fn put_pair(
    on: &Instance,
    work: &[i32],
    certificate: &mut [u8],
    at: usize,
    i: usize,
    v: u8,
) -> usize
    requires full { Full on.now.table.now on.now.recorded.now on.now.found.now work.now }
    requires found_in_bounds { certificate_length on.now.recorded.now on.now.found.now ≤ length certificate.old }
    requires i_bound { (i < count on.now.recorded.now) × (v < count on.now.found.now) }
    requires at_value { at ≡ record_at on.now.recorded.now on.now.found.now (i * width on.now.found.now + offset on.now.found.now v) }
    ensures { Walked on.now.table.now on.now.recorded.now on.now.found.now work.now (i * width on.now.found.now + offset on.now.found.now v) (i * width on.now.found.now + offset on.now.found.now (v + 1)) certificate.old certificate.new result }
{
    let u = in_order(on.plan, i);
    let w = vertex_pair(on.table, on.plan, u, v);
    let g = pair_gains(on, work, u, v, w);
    let k = child_count(on.plan, u);
    let d = degree(on.plan, v);
    let base = i * width_of(on.found) + offset_of(on.plan, v);
    let mut next = at;
    let choices = d + 1;
    for q in 0..choices {
        let duals = duals_of(w, &g, k, d, q);
        let value = work[base + q];
        next = put_one(
            certificate,
            next,
            value,
            &duals.children[..k],
            &duals.neighbours[..d],
            q,
        );
    }
    next
}

// Stores the records of the i-th vertex in postorder from `at` on. Gives the place after the last.
fn put_row(on: &Instance, work: &[i32], certificate: &mut [u8], at: usize, i: usize) -> usize
    requires full { Full on.now.table.now on.now.recorded.now on.now.found.now work.now }
    requires found_in_bounds { certificate_length on.now.recorded.now on.now.found.now ≤ length certificate.old }
    requires i_bound { i < count on.now.recorded.now }
    requires at_value { at ≡ record_at on.now.recorded.now on.now.found.now (i * width on.now.found.now) }
    ensures { Walked on.now.table.now on.now.recorded.now on.now.found.now work.now (i * width on.now.found.now) ((i + 1) * width on.now.found.now) certificate.old certificate.new result }
{
    let m = on.m() as u8;
    let mut next = at;
    for v in 0..m {
        next = put_pair(on, work, certificate, next, i, v);
    }
    next
}

// Stores the records of all subproblems in order, behind the partners.
pub(crate) fn put_records(on: &Instance, work: &[i32], certificate: &mut [u8])
    requires full { Full on.now.table.now on.now.recorded.now on.now.found.now work.now }
    requires found_in_bounds { certificate_length on.now.recorded.now on.now.found.now ≤ length certificate.old }
    ensures { RecordsLeft on.now.table.now on.now.recorded.now on.now.found.now work.now 0 (subproblems on.now.recorded.now on.now.found.now) certificate.old certificate.new }
{
    let n = on.n();
    let mut at = records_begin(n);
    for i in 0..n {
        at = put_row(on, work, certificate, at, i);
    }
}
