//! Item 16: the work numbers before the position, row by row, in a row by found vertex.
ghost use Rattle.std.specs.Prelude.{◌+◌, ◌≤◌, ◌<◌, length, ◌≡◌};
ghost use Rattle.foundations.specs.Lists.{every};
ghost use Rattle.model.specs.Tree.{count};
ghost use Rattle.model.specs.Order.{width, subproblems};
ghost use Rattle.model.specs.Jobs.{work_ok};
ghost use Rattle.plan.specs.Plan.{Lent};
ghost use Rattle.job_items.specs.Work.{row_test, pair_test, in_range};

use plan::counts::width_of;
use plan::instance::Instance;
use plan::weights::vertex_pair;
use plan::{degree, in_order};

// A work number may stand at an allowed pair.
fn in_range(z: i32) -> bool
    ensures { result ≡ in_range z }
{
    (-model::Limits::WEIGHT <= z) & (z <= model::Limits::CEILING)
}

// The count work numbers from `from` on may stand at a pair of this weight.
fn pair_ok(work: &[i32], from: usize, count: usize, weight: i32) -> bool
    requires { from + count ≤ length work.now }
    ensures { result ≡ every (pair_test work.now from weight) count }
{
    if integers::is_forbidden(weight) {
        return (0..count).all(|k| integers::is_forbidden(work[from + k]));
    }
    (0..count).all(|k| in_range(work[from + k]))
}

// The first `upto` work numbers of recorded vertex u, which begin at `base`, may stand at their pairs, one found vertex after the other.
fn row_ok(on: &Instance, work: &[i32], base: usize, u: u8, upto: usize) -> bool
    requires { (u < count on.now.recorded.now) × (upto ≤ width on.now.found.now) × (base + upto ≤ length work.now) }
    ensures { result ≡ every (row_test on.now.table.now on.now.recorded.now on.now.found.now work.now base u) upto }
{
    let mut ok = true;
    let mut v: u8 = 0;
    let mut k: usize = 0;
    // A `while`: it steps by the work numbers of a pair of vertices, and may end within them.
    while k < upto {
        let w = vertex_pair(on.table, on.plan, u, v);
        let end = (k + degree(on.plan, v) + 1).min(upto);
        let fits = pair_ok(work, base + k, end - k, w);
        ok = ok & fits;
        v += 1;
        k = end;
    }
    ok
}

// Item 16 does not apply: every work number before the position may stand at its pair. Row i is that of the i-th vertex in postorder.
pub fn work_ok(on: &Instance, work: &[i32], position: usize) -> bool
    requires lent { Lent on.now.recorded.now on.now.found.now work.now }
    requires position_bound { position ≤ subproblems on.now.recorded.now on.now.found.now }
    ensures { result ≡ work_ok on.now.table.now on.now.recorded.now on.now.found.now work.now position }
{
    let width = width_of(on.found);
    let rows = position.div_ceil(width);
    let mut ok = true;
    for i in 0..rows {
        let base = i * width;
        let upto = width.min(position - base);
        let fine = row_ok(on, work, base, in_order(on.plan, i), upto);
        ok = ok & fine;
    }
    ok
}
