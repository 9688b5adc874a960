//! The weight of the heaviest matching for each choice, from one matching: the whole, and from it the matching without each column by one
//! further search at most. There are at most as many searches as rows and columns, all of them counted. From the only row, and from the
//! only column, every path is a single pair, and a search needs no tree.
ghost use Rattle.std.specs.Prelude.{ℕ, ◌+◌, ◌≤◌, ◌≡◌};
ghost use Rattle.model.specs.Limits.{degree_limit};
ghost use Rattle.assignment.specs.Matching.{cell};
ghost use Rattle.assignment.specs.State.{SingleOf, WeightsOf};
ghost use Rattle.assignment.specs.Loops.{Greatest};
ghost use Rattle.assignment.specs.Counts.{Search, Searches, Countable};

use crate::rest::rest_weight;
use crate::{Assignment, Counts, FREE, Matrix, Problem, SEARCHES, look_at, solve_counted};
use model::{Gains, Limits};

// A weight for each choice: at 0 that of all columns, at c that without column c - 1.
pub type Weights = [u64; Limits::PLACES + 1];

// The greatest gain of the only row for each choice: `rest` for the choice `out`, else `whole`.
#[derive(Drop)]
pub struct Single {
    pub out: usize,
    pub whole: u64,
    pub rest: u64,
}

// The path search from the only row: each of its paths is a single pair. Of the nearest columns it keeps two, so that no choice needs another search.
pub fn row_weights(counts: &mut Counts, g: &Gains, l: usize) -> Single
    requires { (l ≤ degree_limit) × (Countable 1 counts.old) }
    ensures { (SingleOf l (cell g.now) result.out result.whole result.rest) × (Search counts.old counts.new) }
{
    counts[SEARCHES] += 1;
    let mut b = 0;
    let mut d = 0;
    let mut e = 0;
    for j in 0..l {
        let x = look_at(counts, g, 0, j);
        if d < x {
            b = j;
            e = d;
            d = x;
        } else {
            e = x.max(e);
        }
    }
    Single {
        out: b + 1,
        whole: d,
        rest: e,
    }
}

// The path search from the only column: the same turned over, but that without the column nothing is left. It gives the greatest gain.
fn column_search(counts: &mut Counts, g: &Gains, k: usize) -> u64
    requires { (k ≤ degree_limit) × (Countable 1 counts.old) }
    ensures { ((b : ℕ) × Greatest k (λ i. cell g.now i 0) b result) × (Search counts.old counts.new) }
{
    counts[SEARCHES] += 1;
    let mut d = 0;
    for i in 0..k {
        let x = look_at(counts, g, i, 0);
        d = x.max(d);
    }
    d
}

// One column: without it nothing is left.
fn column_weights(counts: &mut Counts, matrix: &Matrix) -> Weights
    requires one { matrix.now.columns ≡ 1 }
    requires countable { Countable (matrix.now.rows + 1) counts.old }
    ensures { (WeightsOf matrix.now.rows 1 (cell matrix.now.gains.now) result) × (Searches (matrix.now.rows + 1) counts.old counts.new) }
{
    let all = column_search(counts, matrix.gains, matrix.rows);
    let mut t = [0; Limits::PLACES + 1];
    t[0] = all;
    t
}

// Any number of rows. Without a column that no row has, the weight is that of all.
fn table_weights(counts: &mut Counts, matrix: &Matrix) -> Weights
    requires { Countable (matrix.now.rows + matrix.now.columns) counts.old }
    ensures { (WeightsOf matrix.now.rows matrix.now.columns (cell matrix.now.gains.now) result) × (Searches (matrix.now.rows + matrix.now.columns) counts.old counts.new) }
{
    let k = matrix.rows;
    let l = matrix.columns;
    let mut solution = Assignment::EMPTY;
    solve_counted(counts, matrix.gains, k, l, 0, &mut solution);
    let all = solution.total(k, l);
    let mut t = [all; Limits::PLACES + 1];
    for c in 0..l {
        if solution.row_of[c] < FREE {
            let problem = Problem {
                matrix: *matrix,
                choice: c + 1,
            };
            let w = rest_weight(counts, &problem, &solution, all);
            t[c + 1] = w;
        }
    }
    t
}

// The weight for each choice, by at most as many searches as there are rows and columns. (Of one row `row_weights` needs one.)
pub fn weights(counts: &mut Counts, matrix: &Matrix) -> Weights
    requires { Countable (matrix.now.rows + matrix.now.columns) counts.old }
    ensures { (WeightsOf matrix.now.rows matrix.now.columns (cell matrix.now.gains.now) result) × (Searches (matrix.now.rows + matrix.now.columns) counts.old counts.new) }
{
    if matrix.columns == 1 {
        return column_weights(counts, matrix);
    }
    table_weights(counts, matrix)
}
