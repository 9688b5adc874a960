//! The searches of one pair of vertices after the other, added up.
ghost use Rattle.std.specs.Prelude.{ℕ, ◌+◌, ◌*◌, ◌≤◌, ◌≡◌, length};
ghost use Rattle.foundations.specs.Sums.{sum};
ghost use Rattle.model.specs.Limits.{pair_limit};
ghost use Rattle.model.specs.Graph.{neighbours};
ghost use Rattle.model.specs.Order.{width, subproblems};
ghost use Rattle.model.specs.Values.{fill};
ghost use Rattle.plan.specs.Plan.{Lent};
ghost use Rattle.assignment.specs.Matching.{at};
ghost use Rattle.assignment.specs.Loops.{far};
ghost use Rattle.assignment.specs.Counts.{searches};
ghost use Rattle.solver.specs.FillLaws.{RowRun, PairRun};
ghost use Rattle.searches.specs.Calls.{PairCounts, Tallied};

use assignment::{Counts, SEARCHES};
use model::Limits;
use plan::counts::width_of;
use plan::instance::Instance;
use plan::{child_count, degree, in_order, offset};
use solver::fill::fill_counted;
use solver::subproblem::Scratch;

// The item that refused the call, 0 for none; then over all pairs of a recorded vertex u with a found vertex v: the searches, the most that they can
// be (the children of u and the neighbours of v), and how often a pair of places was looked at; how many pairs took exactly the most, where that is above
// 0; and the searches of the pair that took the most of them.
// `item` is a number and no Result's error: the layout is that of the C interface (`searches_c`).
#[repr(C)]
#[derive(Clone, Copy)]
pub struct Tally {
    pub item: u8,
    pub searches: u64,
    pub most: u64,
    pub looks: u64,
    pub reached: u64,
    pub greatest: u64,
}

// Nothing counted.
pub(crate) fn none(item: u8) -> Tally
    ensures { (result.item ≡ item) × (result.searches ≡ 0) × (result.most ≡ 0) × (result.looks ≡ 0) × (result.reached ≡ 0) × (result.greatest ≡ 0) }
{
    Tally {
        item,
        searches: 0,
        most: 0,
        looks: 0,
        reached: 0,
        greatest: 0,
    }
}

// How often a pair of places was looked at.
fn looks(counts: &Counts) -> u64
    requires { PairCounts counts.now }
    ensures { (result ≡ sum pair_limit (at counts.now)) × (result ≤ pair_limit * searches counts.now) }
{
    counts[..Limits::PAIRS].iter().sum()
}

// With one pair more.
fn joined(t: Tally, searches: u64, most: u64, looks: u64) -> Tally
    requires { (t.searches + searches ≤ far) × (t.most + most ≤ far) × (t.looks + looks ≤ far) × (t.reached ≤ t.searches) }
    ensures { (result.item ≡ t.item) × (result.searches ≡ t.searches + searches) × (result.most ≡ t.most + most) × (result.looks ≡ t.looks + looks) × (result.reached ≤ result.searches) × ((n : ℕ) → t.greatest ≤ n → searches ≤ n → result.greatest ≤ n) }
{
    // As many as there can be were taken, and there can be some.
    let reached = (searches == most) & (most != 0);
    Tally {
        item: t.item,
        searches: t.searches + searches,
        most: t.most + most,
        looks: t.looks + looks,
        reached: t.reached + u64::from(reached),
        greatest: t.greatest.max(searches),
    }
}

// Fills the subproblems of u and v, which begin at `from`, and adds their searches up.
fn tally_pair(t: Tally, on: &Instance, work: &mut [i32], u: u8, v: u8, from: usize) -> Tally
    requires lent { Lent on.now.recorded.now on.now.found.now work.old }
    requires pair_run { PairRun on.now.recorded.now on.now.found.now u v 0 from (length (neighbours on.now.found.now v) + 1) }
    requires tallied { Tallied on.now.recorded.now on.now.found.now from t }
    ensures { (work.new ≡ fill on.now.table.now on.now.recorded.now on.now.found.now work.old from (length (neighbours on.now.found.now v) + 1)) × (Tallied on.now.recorded.now on.now.found.now (from + (length (neighbours on.now.found.now v) + 1)) result) }
{
    let k = child_count(on.plan, u);
    let l = degree(on.plan, v);
    let mut scratch = Scratch::new();
    fill_counted(&mut scratch, on, work, from, l + 1);
    let s = scratch.counts[SEARCHES];
    joined(t, s, (k + l) as u64, looks(&scratch.counts))
}

// The pairs of u, whose subproblems begin at `base`.
fn tally_row(t: Tally, on: &Instance, work: &mut [i32], u: u8, base: usize) -> Tally
    requires lent { Lent on.now.recorded.now on.now.found.now work.old }
    requires row_run { RowRun on.now.recorded.now on.now.found.now u 0 base (width on.now.found.now) }
    requires tallied { Tallied on.now.recorded.now on.now.found.now base t }
    ensures { (work.new ≡ fill on.now.table.now on.now.recorded.now on.now.found.now work.old base (width on.now.found.now)) × (Tallied on.now.recorded.now on.now.found.now (base + width on.now.found.now) result) }
{
    let m = on.m() as u8;
    let mut all = t;
    for v in 0..m {
        let from = base + offset(on.plan, v);
        all = tally_pair(all, on, work, u, v, from);
    }
    all
}

// All pairs, in the order of their subproblems.
pub(crate) fn tally_all(on: &Instance, work: &mut [i32]) -> Tally
    requires { Lent on.now.recorded.now on.now.found.now work.old }
    ensures { (work.new ≡ fill on.now.table.now on.now.recorded.now on.now.found.now work.old 0 (subproblems on.now.recorded.now on.now.found.now)) × (Tallied on.now.recorded.now on.now.found.now (subproblems on.now.recorded.now on.now.found.now) result) }
{
    let n = on.n();
    let width = width_of(on.found);
    let mut all = none(0);
    for i in 0..n {
        let u = in_order(on.plan, i);
        all = tally_row(all, on, work, u, i * width);
    }
    all
}
