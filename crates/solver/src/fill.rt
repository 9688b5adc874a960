//! Filling: count subproblems from a position on, each from the work numbers before it. What u and v have in common is found once: the gains, and
//! from them the weight of the matching for each choice of s. The path searches that this takes are counted.
ghost use Rattle.std.specs.Prelude.{◌+◌, ◌≤◌, ◌≡◌, length};
ghost use Rattle.model.specs.Limits.{pair_limit};
ghost use Rattle.model.specs.Order.{subproblems};
ghost use Rattle.model.specs.Values.{fill};
ghost use Rattle.plan.specs.Plan.{Lent};
ghost use Rattle.assignment.specs.Counts.{Search, Searches, Countable};
ghost use Rattle.assignment.specs.Matching.{cell};
ghost use Rattle.solver.specs.Branches.{SharedOf};
ghost use Rattle.solver.specs.FillLaws.{RowRun, PairRun};
ghost use Rattle.solver.specs.Numbers.{written, PairTable, Numbers};
ghost use Rattle.solver.specs.Bound.{pair_most, search_most};

use crate::subproblem::{Scratch, Shared, gains, shared_of};
use assignment::weights::{row_weights, weights};
use assignment::{Counts, Matrix};
use model::Limits;
use plan::counts::width_of;
use plan::instance::Instance;
use plan::weights::vertex_pair_in;
use plan::{degree, in_order, locate, offset};

// Subproblems that follow each other: count of them, from number `from` on. `first` is the number of the first of them among those of its recorded
// vertex, or of its pair of vertices.
#[derive(Clone, Copy)]
struct Run {
    first: usize,
    from: usize,
    count: usize,
}

// The same number throughout a run.
fn repeat(work: &mut [i32], x: i32, run: Run)
    requires { run.from + run.count ≤ length work.old }
    ensures { work.new ≡ written work.old run.from run.count (λ i. x) }
{
    work[run.from..run.from + run.count].fill(x);
}

// The numbers of a run of a pair with one child, whose gains are in row 0: the same for every choice but one.
fn fill_single(scratch: &mut Scratch, l: usize, w: i32, work: &mut [i32], run: Run)
    requires pair_table { PairTable 1 l (cell scratch.old.gains) w run.first run.from run.count work.old }
    requires countable { Countable 1 scratch.old.counts }
    ensures { (Numbers 1 l (cell scratch.old.gains) w run.first run.from run.count work.old work.new) × (Search scratch.old.counts scratch.new.counts) }
{
    let r = row_weights(&mut scratch.counts, &scratch.gains, l);
    repeat(work, integers::stored_value(w, r.whole), run);
    if r.out < run.first {
        return;
    }
    let i = r.out - run.first;
    if i < run.count {
        let x = integers::stored_value(w, r.rest);
        work[run.from + i] = x;
    }
}

// The numbers of a run of a pair with any number of children.
fn fill_table(scratch: &mut Scratch, k: usize, l: usize, w: i32, work: &mut [i32], run: Run)
    requires pair_table { PairTable k l (cell scratch.old.gains) w run.first run.from run.count work.old }
    requires countable { Countable (k + l) scratch.old.counts }
    ensures { (Numbers k l (cell scratch.old.gains) w run.first run.from run.count work.old work.new) × (Searches (k + l) scratch.old.counts scratch.new.counts) }
{
    let first = run.first;
    let from = run.from;
    let count = run.count;
    let matrix = Matrix {
        gains: &scratch.gains,
        rows: k,
        columns: l,
    };
    let t = weights(&mut scratch.counts, &matrix);
    for i in 0..count {
        let x = integers::stored_value(w, t[first + i]);
        work[from + i] = x;
    }
}

// Of the subproblems of u and v a run that begins with the first-th choice of s, by at most one search for each child of u and one for each neighbour of
// v. What the gains held does not matter.
fn fill_pair(scratch: &mut Scratch, on: &Instance, work: &mut [i32], of: Shared, v: u8, run: Run)
    requires lent { Lent on.now.recorded.now on.now.found.now work.old }
    requires shared_of { SharedOf on.now.table.now on.now.recorded.now on.now.found.now on.now.plan.now of }
    requires pair_run { PairRun on.now.recorded.now on.now.found.now of.u v run.first run.from run.count }
    requires countable { Countable (pair_most on.now.recorded.now on.now.found.now of.u v) scratch.old.counts }
    ensures { (work.new ≡ fill on.now.table.now on.now.recorded.now on.now.found.now work.old run.from run.count) × (Searches (pair_most on.now.recorded.now on.now.found.now of.u v) scratch.old.counts scratch.new.counts) }
{
    let w = vertex_pair_in(on.table, on.plan, of.row, v);
    let k = of.count;
    let l = degree(on.plan, v);
    if integers::is_forbidden(w) {
        repeat(work, Limits::FORBIDDEN, run);
        return;
    }
    if k == 0 {
        repeat(work, integers::stored_value(w, 0), run);
        return;
    }
    gains(&mut scratch.gains, on, work, of, v);
    if k == 1 {
        fill_single(scratch, l, w, work, run);
        return;
    }
    fill_table(scratch, k, l, w, work, run);
}

// Of the subproblems of u a run: from the pair that it begins within to the one that it ends within.
fn fill_row(scratch: &mut Scratch, on: &Instance, work: &mut [i32], u: u8, run: Run)
    requires lent { Lent on.now.recorded.now on.now.found.now work.old }
    requires row_run { RowRun on.now.recorded.now on.now.found.now u run.first run.from run.count }
    requires countable { Countable (search_most on.now.recorded.now on.now.found.now run.from run.count) scratch.old.counts }
    ensures { (work.new ≡ fill on.now.table.now on.now.recorded.now on.now.found.now work.old run.from run.count) × (Searches (search_most on.now.recorded.now on.now.found.now run.from run.count) scratch.old.counts scratch.new.counts) }
{
    let of = shared_of(on, u);
    let m = on.m();
    let first = run.first;
    let from = run.from;
    let count = run.count;
    let mut v = locate(on.plan, m, first, 0);
    let mut q = first - offset(on.plan, v);
    let mut i = 0;
    // A `while`: it steps by what is left of the pair, or of the run.
    while i < count {
        let c = (count - i).min(degree(on.plan, v) + 1 - q);
        let at = from + i;
        let part = Run {
            first: q,
            from: at,
            count: c,
        };
        fill_pair(scratch, on, work, of, v, part);
        v += 1;
        q = 0;
        i += c;
    }
}

// The subproblems from, from + 1, .. below from + count, in order. What it counts is added to the counts.
pub fn fill_counted(
    scratch: &mut Scratch,
    on: &Instance,
    work: &mut [i32],
    from: usize,
    count: usize,
)
    requires lent { Lent on.now.recorded.now on.now.found.now work.old }
    requires count_bound { from + count ≤ subproblems on.now.recorded.now on.now.found.now }
    requires countable { Countable (search_most on.now.recorded.now on.now.found.now from count) scratch.old.counts }
    ensures { (work.new ≡ fill on.now.table.now on.now.recorded.now on.now.found.now work.old from count) × (Searches (search_most on.now.recorded.now on.now.found.now from count) scratch.old.counts scratch.new.counts) }
{
    // A copy: of what is lent each part would be read again after each gain that is stored.
    let instance = *on;
    let width = width_of(instance.found);
    let mut i = 0;
    // A `while`: it steps by what is left of the row, or of all.
    while i < count {
        let p = from + i;
        let rest = p % width;
        let c = (count - i).min(width - rest);
        let u = in_order(instance.plan, p / width);
        let run = Run {
            first: rest,
            from: p,
            count: c,
        };
        fill_row(scratch, &instance, work, u, run);
        i += c;
    }
}

// The same where no one asks for the counts.
pub fn fill(on: &Instance, work: &mut [i32], from: usize, count: usize)
    requires lent { Lent on.now.recorded.now on.now.found.now work.old }
    requires count_bound { from + count ≤ subproblems on.now.recorded.now on.now.found.now }
    ensures { work.new ≡ fill on.now.table.now on.now.recorded.now on.now.found.now work.old from count }
{
    fill_counted(&mut Scratch::new(), on, work, from, count);
}
