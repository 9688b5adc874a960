//! The weight of the heaviest matching without one column, from the answer of all columns: the row that has the column is made pending and
//! joins again by one search. Only how far the search goes is wanted, so it writes nothing that is lent but the counts.
ghost use Rattle.std.specs.Prelude.{◌+◌, ◌-◌, ◌<◌, ◌≤◌, ◌≡◌};
ghost use Rattle.foundations.specs.Sums.{sum};
ghost use Rattle.model.specs.Limits.{degree_limit};
ghost use Rattle.assignment.specs.Matching.{at, cell, out_of};
ghost use Rattle.assignment.specs.State.{Heaviest};
ghost use Rattle.assignment.specs.Tree.{Vacant, Reached, Solution};
ghost use Rattle.assignment.specs.Counts.{Search, Countable};

use crate::{Assignment, Columns, Counts, FREE, GAIN_LIMIT, Problem, SEARCHES, look, look_first};
use model::{Limits, Row, WideRow};

// How far the search from row r goes, which is the only pending row: the distance at which it ends, as in `search`.
fn distance(
    counts: &mut Counts,
    problem: &Problem,
    r: usize,
    row_duals: &WideRow,
    column_duals: &WideRow,
    row_of: &Row,
) -> u64
    requires vacant { Vacant problem.now.matrix.rows problem.now.matrix.columns r (out_of problem.now.choice (cell problem.now.matrix.gains.now)) row_duals.now column_duals.now row_of.now }
    requires countable { Countable 1 counts.old }
    ensures { (Reached problem.now.matrix.rows problem.now.matrix.columns r (out_of problem.now.choice (cell problem.now.matrix.gains.now)) row_duals.now column_duals.now result) × (Search counts.old counts.new) }
{
    counts[SEARCHES] += 1;
    // `look` keeps the rows in `from`; nothing here asks for them
    let mut columns = Columns {
        distance: [0; Limits::PLACES],
        from: [r as u8; Limits::PLACES],
        joined: [false; Limits::PLACES],
    };
    let mut near = look_first(counts, problem, column_duals, r, &mut columns.distance);
    let mut low = GAIN_LIMIT;
    while near.value < low {
        let b = near.place;
        let d = near.value;
        let t = row_of[b];
        let o = usize::from(t);
        if Limits::PLACES <= o {
            return d;
        }
        columns.joined[b] = true;
        let base = row_duals[o] + d;
        low = low.min(base);
        near = look(counts, problem, column_duals, &mut columns, t, base);
    }
    low
}

// The weight without the column that the choice leaves out, where a row has it in the answer of all columns, whose weight is `all`.
pub(crate) fn rest_weight(
    counts: &mut Counts,
    problem: &Problem,
    solution: &Assignment,
    all: u64,
) -> u64
    requires sized { (Solution problem.now.matrix.rows problem.now.matrix.columns (cell problem.now.matrix.gains.now) solution.now.row_duals solution.now.column_duals solution.now.row_of) × (1 ≤ problem.now.choice) × (problem.now.choice ≤ problem.now.matrix.columns) × (at solution.now.row_of (problem.now.choice - 1) < degree_limit) × (all ≡ sum problem.now.matrix.rows (at solution.now.row_duals) + sum problem.now.matrix.columns (at solution.now.column_duals)) }
    requires countable { Countable 1 counts.old }
    ensures { (Heaviest problem.now.matrix.rows problem.now.matrix.columns (out_of problem.now.choice (cell problem.now.matrix.gains.now)) result) × (Search counts.old counts.new) }
{
    let j = problem.choice - 1;
    let r = usize::from(solution.row_of[j]);
    let mut duals = solution.column_duals;
    duals[j] = 0;
    let mut row_of = solution.row_of;
    row_of[j] = FREE;
    let e = distance(counts, problem, r, &solution.row_duals, &duals, &row_of);
    all + (GAIN_LIMIT - e) - (solution.row_duals[r] + solution.column_duals[j])
}
