//! The heaviest matching of rows with columns, at most `PLACES` each, by path searches: one search for each row, and in a search each pair of a row
//! and a column is looked at once at most. Searches and looks are counted. Gains are at `row * PLACES + column`, none above `GAIN_LIMIT`. The
//! duals of rows and of columns show that no matching is heavier: their sums cover every gain, and the sum of all is the matching's
//! weight. A choice c leaves a column out: none for 0, else column c - 1. `weights` has the weight for each choice, and `rest` that without one
//! column. The definitions are in `specs/`; they call the row duals y, the column duals z, the column of each row m and the row of each column own.
#![tactic(auto)]

pub mod rest;
pub mod weights;

ghost use Rattle.std.specs.Prelude.{ℕ, ◌+◌, ◌-◌, ◌*◌, ◌<◌, ◌≤◌, ◌≡◌, ◌≢◌, length, replicate, false, IsTrue, MatchOption};
ghost use Rattle.foundations.specs.Sums.{sum};
ghost use Rattle.model.specs.Limits.{degree_limit, pair_limit};
ghost use Rattle.assignment.specs.Matching.{at, cell, kept_of, out_of, gain_limit};
ghost use Rattle.assignment.specs.State.{Sized, Lengths, Bytes, Blank, Pending, Answer, Partner, Total, place_or};
ghost use Rattle.assignment.specs.Loops.{far, less_of, who_of, row_end, OwnersOf, Looked, First, Room, Settled};
ghost use Rattle.assignment.specs.Tree.{Grown, Rooted, Ended};
ghost use Rattle.assignment.specs.Counts.{looked_at, Tried, RowCountable, Once, Search, Searches, Countable};
ghost use Rattle.assignment.specs.Marks.{mark, marks};

use model::{Gains, Limits, Row, WideRow};

// No gain is greater: 2 ^ 48.
pub const GAIN_LIMIT: u64 = 281474976710656;

// What stands for the column of a row that has none, and for the row of a column that has none: the rows of bytes are the lists of the definitions
// (`Bytes`, `OwnersOf`), where a number from degree_limit on is none.
pub const FREE: u8 = Limits::DEGREE;

// How often each pair of a row and a column was looked at, at row * PLACES + column, and at SEARCHES how many path searches
// there were.
pub type Counts = [u64; Limits::PAIRS + 1];

pub const SEARCHES: usize = Limits::PAIRS;

// Greater than every distance.
const FAR: u64 = u64::MAX;

// The gains of some rows with some columns, none above the limit.
#[derive(Clone, Copy)]
pub struct Matrix<'a> {
    pub gains: &'a Gains,
    pub rows: usize,
    pub columns: usize,
    pub ghost sized: { Sized rows columns (cell gains.now) },
}

// The same without the column that the choice leaves out.
#[derive(Clone, Copy)]
pub(crate) struct Problem<'a> {
    pub(crate) matrix: Matrix<'a>,
    pub(crate) choice: usize,
}

// A matching and the duals: those of the rows and of the columns, the column of each row and the row of each column, or FREE.
#[derive(Clone, Copy)]
pub struct Assignment {
    pub row_duals: WideRow,
    pub column_duals: WideRow,
    pub column_of: Row,
    pub row_of: Row,
}

// Whether each row, or each column, has joined a search's tree.
type Marks = [bool; Limits::PLACES];

// The columns in a search: how far each is from the tree, the tree row that has this distance, and whether it joined.
#[derive(Clone, Copy)]
pub(crate) struct Columns {
    pub(crate) distance: WideRow,
    pub(crate) from: Row,
    pub(crate) joined: Marks,
}

// The rows in a search: at which distance each joined, whether it did, and the matching in which it is free in place of the root.
#[derive(Clone, Copy)]
struct Rows {
    distance: WideRow,
    joined: Marks,
    alternative: [Row; Limits::PLACES],
}

// The least of some values and the place that has it. Of none: `FAR`, where the minimum begins, at `PLACES`, as the definition `Nearest` has it. (An
// Option would add a case to each comparison.)
#[derive(Clone, Copy)]
pub(crate) struct Least {
    pub(crate) place: usize,
    pub(crate) value: u64,
}

impl Least {
    // This one, or another that is less.
    pub(crate) fn or(self, place: usize, value: u64) -> Least
        ensures { (result.place ≡ who_of value self.value place self.place) × (result.value ≡ less_of value self.value) }
    {
        if value < self.value {
            Least { place, value }
        } else {
            self
        }
    }
}

// The row that has each column, or FREE.
fn owners(m: &Row, k: usize) -> Row
    requires { k ≤ degree_limit }
    ensures { OwnersOf k m.now result }
{
    let mut own = [FREE; Limits::PLACES];
    for i in 0..k {
        let c = usize::from(m[i]);
        if c < Limits::PLACES {
            own[c] = i as u8;
        }
    }
    own
}

// The gain of row i with column j, which is looked at once more. No other function reads a gain in a search.
pub(crate) fn look_at(counts: &mut Counts, g: &Gains, i: usize, j: usize) -> u64
    requires { (length counts.old ≡ pair_limit + 1) × (i < degree_limit) × (j < degree_limit) × (cell counts.old i j < far) }
    ensures { (result ≡ cell g.now i j) × (counts.new ≡ looked_at i j counts.old) }
{
    let p = i * Limits::PLACES + j;
    counts[p] += 1;
    g[p]
}

// The gain x with column j, 0 where choice c leaves the column out.
fn kept(c: usize, j: usize, x: u64) -> u64
    requires { j < degree_limit }
    ensures { result ≡ kept_of c j x }
{
    if j + 1 == c { 0 } else { x }
}

impl<'a> Problem<'a> {
    // The gain of row i with column j, which is looked at once more.
    fn look_at(&self, counts: &mut Counts, i: usize, j: usize) -> u64
        requires { (i < degree_limit) × (j < degree_limit) × (length counts.old ≡ pair_limit + 1) × (cell counts.old i j < far) }
        ensures { (result ≡ out_of self.now.choice (cell self.now.matrix.gains.now) i j) × (counts.new ≡ looked_at i j counts.old) }
    {
        kept(self.choice, j, look_at(counts, self.matrix.gains, i, j))
    }
}

// The distance of each column from row r at the greatest dual, and the nearest column.
pub(crate) fn look_first(
    counts: &mut Counts,
    problem: &Problem,
    z: &WideRow,
    r: usize,
    dist: &mut WideRow,
) -> Least
    requires dist_len { (length dist.old ≡ degree_limit) × (r < problem.now.matrix.rows) × ((x : ℕ) → x < problem.now.matrix.columns → at z.now x ≤ gain_limit) }
    requires row_countable { RowCountable r counts.old }
    ensures { (First problem.now.matrix.columns (λ x. gain_limit + at z.now x - out_of problem.now.choice (cell problem.now.matrix.gains.now) r x) dist.old dist.new result.place result.value) × (Tried r problem.now.matrix.columns counts.old counts.new) }
{
    let mut near = Least {
        place: Limits::PLACES,
        value: FAR,
    };
    let l = problem.matrix.columns;
    for j in 0..l {
        let x = problem.look_at(counts, r, j);
        let s = GAIN_LIMIT + z[j] - x;
        dist[j] = s;
        near = near.or(j, s);
    }
    near
}

// The row that has the lesser of two distances. (As an `if` in the loop of `look` the compiler makes a branch of it, and 8 by 8 takes two thirds longer.)
fn source(new: u64, old: u64, t: u8, from: u8) -> u8
    ensures { result ≡ who_of new old t from }
{
    if new < old { t } else { from }
}

// The distances after row t joined the tree, and the nearest column outside.
pub(crate) fn look(
    counts: &mut Counts,
    problem: &Problem,
    z: &WideRow,
    columns: &mut Columns,
    t: u8,
    base: u64,
) -> Least
    requires dist_len { (length columns.old.distance ≡ degree_limit) × (length columns.old.from ≡ degree_limit) × (t < degree_limit) × (base ≤ 2 * gain_limit) × ((x : ℕ) → x < problem.now.matrix.columns → (at z.now x ≤ gain_limit) × (out_of problem.now.choice (cell problem.now.matrix.gains.now) t x ≤ base + at z.now x)) }
    requires row_countable { RowCountable t counts.old }
    ensures looked { Looked problem.now.matrix.columns t (λ x. base + at z.now x - out_of problem.now.choice (cell problem.now.matrix.gains.now) t x) (at (marks columns.old.joined)) columns.old.distance columns.old.from columns.new.distance columns.new.from result.place result.value }
    ensures joined { columns.new.joined ≡ columns.old.joined }
    ensures tried { Tried t problem.now.matrix.columns counts.old counts.new }
{
    let mut near = Least {
        place: Limits::PLACES,
        value: FAR,
    };
    let o = usize::from(t);
    let l = problem.matrix.columns;
    for j in 0..l {
        let s = base + z[j] - problem.look_at(counts, o, j);
        let old = columns.distance[j];
        let new = old.min(s);
        columns.distance[j] = new;
        columns.from[j] = source(s, old, t, columns.from[j]);
        let open = if columns.joined[j] { FAR } else { new };
        near = near.or(j, open);
    }
    near
}

// The dual x where the place joined the tree: raised by up and lowered by down.
fn shifted(joined: bool, x: u64, up: u64, down: u64) -> u64
    requires { IsTrue joined → (down ≤ x + up) × (x + up ≤ 2 * gain_limit) }
    ensures { result ≡ row_end down (mark joined) up x }
{
    if joined { x + up - down } else { x }
}

// The duals at the end of a search at distance e.
fn settle(solution: &mut Assignment, rows: &Rows, columns: &Columns, matrix: &Matrix, e: u64)
    requires { Room matrix.now.rows matrix.now.columns e (marks rows.now.joined) (marks columns.now.joined) columns.now.distance rows.now.distance solution.old.row_duals solution.old.column_duals }
    ensures settled { Settled matrix.now.rows matrix.now.columns e (marks rows.now.joined) (marks columns.now.joined) columns.now.distance rows.now.distance solution.old.row_duals solution.old.column_duals solution.new.row_duals solution.new.column_duals }
    ensures column_of { solution.new.column_of ≡ solution.old.column_of }
{
    let k = matrix.rows;
    for i in 0..k {
        let x = solution.row_duals[i];
        solution.row_duals[i] = shifted(rows.joined[i], x, rows.distance[i], e);
    }
    let l = matrix.columns;
    for j in 0..l {
        let x = solution.column_duals[j];
        solution.column_duals[j] = shifted(columns.joined[j], x, e, columns.distance[j]);
    }
}

// Row o and its column b join the tree at distance d, by way of row p: o's alternative is p's with b for p, and o made free.
fn grow(rows: &mut Rows, columns: &mut Columns, p: usize, b: usize, o: usize, d: u64)
    requires { (p < degree_limit) × (b < degree_limit) × (o < degree_limit) }
    ensures grown { Grown p b o d rows.old.alternative (marks rows.old.joined) (marks columns.old.joined) rows.old.distance rows.new.alternative (marks rows.new.joined) (marks columns.new.joined) rows.new.distance }
    ensures columns { (columns.new.distance ≡ columns.old.distance) × (columns.new.from ≡ columns.old.from) }
{
    let alternative = rows.alternative[p];
    rows.alternative[o] = alternative;
    rows.alternative[o][p] = b as u8;
    rows.alternative[o][o] = FREE;
    rows.joined[o] = true;
    columns.joined[b] = true;
    rows.distance[o] = d;
}

// The search from row r, whose dual is the limit and whose distances are known; what else the columns held does not matter. A turn takes the nearest column into the tree,
// with its row. The search ends at a column without a row, or where a tree row's dual is 0: that row is made free.
fn explore(
    counts: &mut Counts,
    problem: &Problem,
    r: usize,
    solution: &mut Assignment,
    columns: &mut Columns,
    first: Least,
)
    requires rooted { Rooted problem.now.matrix.rows problem.now.matrix.columns r (out_of problem.now.choice (cell problem.now.matrix.gains.now)) solution.old.row_duals solution.old.column_duals solution.old.column_of solution.old.row_of columns.old.distance first.place first.value }
    requires by_index { (i : ℕ) → i < degree_limit → i ≢ r → RowCountable i counts.old }
    ensures { (Ended problem.now.matrix.rows problem.now.matrix.columns r (out_of problem.now.choice (cell problem.now.matrix.gains.now)) solution.old.row_duals solution.old.column_duals solution.old.column_of solution.new.row_duals solution.new.column_duals solution.new.column_of) × (Once r counts.old counts.new) }
{
    let mut rows = Rows {
        distance: [0; Limits::PLACES],
        joined: [false; Limits::PLACES],
        alternative: [[FREE; Limits::PLACES]; Limits::PLACES],
    };
    rows.joined[r] = true;
    rows.alternative[r] = solution.column_of;
    columns.from = [r as u8; Limits::PLACES];
    columns.joined = [false; Limits::PLACES];
    let mut low = Least {
        place: r,
        value: GAIN_LIMIT,
    };
    let mut near = first;
    while near.value < low.value {
        let b = near.place;
        let d = near.value;
        let p = usize::from(columns.from[b]);
        let t = solution.row_of[b];
        let o = usize::from(t);
        if Limits::PLACES <= o {
            settle(solution, &rows, columns, &problem.matrix, d);
            let matching = rows.alternative[p];
            solution.column_of = matching;
            solution.column_of[p] = b as u8;
            return;
        }
        grow(&mut rows, columns, p, b, o, d);
        let base = solution.row_duals[o] + d;
        low = low.or(o, base);
        near = look(counts, problem, &solution.column_duals, columns, t, base);
    }
    settle(solution, &rows, columns, &problem.matrix, low.value);
    solution.column_of = rows.alternative[low.place];
}

// Row r, which is pending, joins the finished rows, whichever they are. Its dual starts at the limit, which covers every gain, so
// that its gains are looked at once. Nothing is left to do where the columns' duals cover r, or its nearest column is free.
// The search is counted, and so is each pair that it looks at: none twice.
fn search(counts: &mut Counts, problem: &Problem, r: usize, solution: &mut Assignment)
    requires pending { (r < problem.now.matrix.rows) × (Lengths solution.old.row_duals solution.old.column_duals solution.old.column_of) × (Bytes problem.now.matrix.columns solution.old.column_of) × (Pending problem.now.matrix.rows problem.now.matrix.columns r (out_of problem.now.choice (cell problem.now.matrix.gains.now)) (at solution.old.row_duals) (at solution.old.column_duals) (at solution.old.column_of)) × (OwnersOf problem.now.matrix.rows solution.old.column_of solution.old.row_of) }
    requires countable { Countable 1 counts.old }
    ensures ended { Ended problem.now.matrix.rows problem.now.matrix.columns r (out_of problem.now.choice (cell problem.now.matrix.gains.now)) solution.old.row_duals solution.old.column_duals solution.old.column_of solution.new.row_duals solution.new.column_duals solution.new.column_of }
    ensures owners { OwnersOf problem.now.matrix.rows solution.new.column_of solution.new.row_of }
    ensures search { Search counts.old counts.new }
{
    counts[SEARCHES] += 1;
    let mut columns = Columns {
        distance: [0; Limits::PLACES],
        from: [0; Limits::PLACES],
        joined: [false; Limits::PLACES],
    };
    let near = look_first(
        counts,
        problem,
        &solution.column_duals,
        r,
        &mut columns.distance,
    );
    let d = near.value;
    if GAIN_LIMIT <= d {
        solution.row_duals[r] = 0;
        return;
    }
    let b = near.place;
    if FREE <= solution.row_of[b] {
        solution.row_duals[r] = GAIN_LIMIT - d;
        solution.column_of[r] = b as u8;
        solution.row_of[b] = r as u8;
        return;
    }
    solution.row_duals[r] = GAIN_LIMIT;
    explore(counts, problem, r, solution, &mut columns, near);
    let own = owners(&solution.column_of, problem.matrix.rows);
    solution.row_of = own;
}

// The heaviest matching of so many rows and columns with its duals for a choice, one search for each row. No row has a column yet. (The gains come as an
// argument of their own, since this is a call where the others are built into their callers: behind a `Matrix` that is lent their address would be
// known to the callee, and a caller that stores a gain would read again all that it holds behind references, half as much again for each gain.)
pub(crate) fn solve_counted(
    counts: &mut Counts,
    gains: &Gains,
    rows: usize,
    columns: usize,
    choice: usize,
    solution: &mut Assignment,
)
    requires sized { Sized rows columns (cell gains.now) }
    requires blank { (Blank solution.old.column_duals solution.old.column_of) × (solution.old.row_of ≡ solution.old.column_of) }
    requires countable { Countable rows counts.old }
    ensures answer { Answer rows columns (out_of choice (cell gains.now)) solution.new.row_duals solution.new.column_duals solution.new.column_of }
    ensures owners { OwnersOf rows solution.new.column_of solution.new.row_of }
    ensures searches { Searches rows counts.old counts.new }
{
    let problem = Problem {
        matrix: Matrix {
            gains,
            rows,
            columns,
        },
        choice,
    };
    for r in 0..rows {
        search(counts, &problem, r, solution);
    }
}

// The same of a matrix, whatever the solution held. The counts are lent for the work. (The solution is lent too: returned by value it is copied three times,
// a third of the time of a 2 by 2 matrix.)
pub fn solve_without(counts: &mut Counts, matrix: &Matrix, choice: usize, solution: &mut Assignment)
    requires { Countable matrix.now.rows counts.old }
    ensures answer { Answer matrix.now.rows matrix.now.columns (out_of choice (cell matrix.now.gains.now)) solution.new.row_duals solution.new.column_duals solution.new.column_of }
    ensures owners { OwnersOf matrix.now.rows solution.new.column_of solution.new.row_of }
    ensures searches { Searches matrix.now.rows counts.old counts.new }
{
    solution.column_duals = [0; Limits::PLACES];
    solution.column_of = [FREE; Limits::PLACES];
    solution.row_of = [FREE; Limits::PLACES];
    solve_counted(
        counts,
        matrix.gains,
        matrix.rows,
        matrix.columns,
        choice,
        solution,
    );
}

// The same with all columns, where no one asks for the counts.
pub fn solve(matrix: &Matrix, solution: &mut Assignment)
    ensures { Answer matrix.now.rows matrix.now.columns (cell matrix.now.gains.now) solution.new.row_duals solution.new.column_duals solution.new.column_of }
{
    let mut counts = [0; Limits::PAIRS + 1];
    solve_without(&mut counts, matrix, 0, solution);
}

// What row i has in the answer for choice c, if any: its column. A matched pair whose gain is 0 is no pair of the answer.
pub fn partner(g: &Gains, l: usize, c: usize, m: &Row, i: usize) -> Option<usize>
    requires { (l ≤ degree_limit) × (i < degree_limit) }
    ensures partner { Partner l (out_of c (cell g.now)) (at m.now) i (place_or result) }
    ensures below { MatchOption result (Unit {0}) (λ j. j < l) }
{
    let j = usize::from(m[i]);
    if l <= j {
        return None;
    }
    let none = kept(c, j, g[i * Limits::PLACES + j]) == 0;
    if none {
        return None;
    }
    Some(j)
}

// The sum of the first n.
fn sum_of(a: &WideRow, n: usize) -> u64
    requires { (n ≤ degree_limit) × ((x : ℕ) → x < n → at a.now x ≤ gain_limit) }
    ensures { (result ≡ sum n (at a.now)) × (result ≤ n * gain_limit) }
{
    let mut s = 0;
    for i in 0..n {
        s += a[i];
    }
    s
}

impl Assignment {
    // The empty one, where no row has a column.
    pub const EMPTY: Assignment = Assignment {
        row_duals: [0; Limits::PLACES],
        column_duals: [0; Limits::PLACES],
        column_of: [FREE; Limits::PLACES],
        row_of: [FREE; Limits::PLACES],
    };

    // The sum of the duals of the first k rows and l columns: the greatest weight, where they are those of an answer.
    pub fn total(&self, k: usize, l: usize) -> u64
        requires { (k ≤ degree_limit) × (l ≤ degree_limit) × ((x : ℕ) → x < k → at self.now.row_duals x ≤ gain_limit) × ((x : ℕ) → x < l → at self.now.column_duals x ≤ gain_limit) }
        ensures { Total k l (at self.now.row_duals) (at self.now.column_duals) result }
    {
        sum_of(&self.row_duals, k) + sum_of(&self.column_duals, l)
    }
}
