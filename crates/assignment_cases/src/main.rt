//! Compares the assignment with an exhaustive search on many small matrices: rows and columns 0 to 5 in every combination, small
//! gains with ties, larger ones, many zeros, the whole range up to the limit, and gains at the limit, each under several seeds.
//! Of each answer it checks the weight, that the pairs handed on make it up, that they are distinct, and that the duals cover
//! every gain; then the weight for each choice, all columns and without each. It prints how many it compared and how many were right,
//! and how many searches there were for the weights, of how many at most.
#![tactic(auto)]

ghost use Rattle.std.specs.Prelude.{◌*◌, ◌<◌, ◌≤◌};
ghost use Rattle.model.specs.Limits.{degree_limit, pair_limit};
ghost use Rattle.assignment.specs.Matching.{cell, gain_limit};
ghost use Rattle.assignment.specs.State.{Sized, Answer};
ghost use Rattle.assignment_cases.specs.Small.{Small};

use assignment::weights::{Weights, row_weights, weights};
use assignment::{Assignment, GAIN_LIMIT, Matrix, SEARCHES, partner};
use model::{Gains, Limits};
use std::{fmt, io};

// How many answers were compared and right, of whole matrices and of those without a column.
#[derive(Clone, Copy)]
struct Count {
    matrices: u64,
    right: u64,
    rests: u64,
    rests_right: u64,
    searches: u64,
    most: u64,
}

// What the gains of a matrix are.
#[derive(Clone, Copy)]
enum Kind {
    ManyTies,
    UpTo999,
    ManyZeros,
    WholeRange,
    AtLimit,
}

impl Kind {
    const ALL: [Kind; 5] = [
        Kind::ManyTies,
        Kind::UpTo999,
        Kind::ManyZeros,
        Kind::WholeRange,
        Kind::AtLimit,
    ];
}

impl fmt::Display for Kind {
    fn fmt<W: fmt::Write>(&self, f: &mut fmt::Formatter<W>) -> fmt::Result {
        f.write_str(match self {
            Kind::ManyTies => "many ties",
            Kind::UpTo999 => "up to 999",
            Kind::ManyZeros => "many zeros",
            Kind::WholeRange => "the whole range",
            Kind::AtLimit => "at the limit",
        })
    }
}

// Which columns are free.
type Free = [bool; Limits::PLACES];

// The next of a sequence of numbers that look random.
fn next(s: u64) -> u64 {
    let a = s ^ (s << 13);
    let b = a ^ (a >> 7);
    b ^ (b << 17)
}

// More zeros than not.
fn sparse(x: u64) -> u64
    ensures { result ≤ 3 }
{
    let r = x % 8;
    if r < 4 { 0 } else { r % 4 }
}

fn gain(kind: Kind, x: u64) -> u64
    ensures { result ≤ gain_limit }
{
    match kind {
        Kind::ManyTies => x % 4,
        Kind::UpTo999 => x % 1000,
        Kind::ManyZeros => sparse(x),
        Kind::WholeRange => x % (GAIN_LIMIT + 1),
        Kind::AtLimit => GAIN_LIMIT - x % 2,
    }
}

fn table(kind: Kind, seed: u64) -> Gains
    ensures { Small pair_limit result }
{
    let mut g = [0; Limits::PAIRS];
    let mut s = seed;
    for i in 0..Limits::PAIRS {
        s = next(s);
        g[i] = gain(kind, s);
    }
    g
}

// The greatest weight of the first k rows over the free columns, by trying all. (It takes no `Matrix`: each step has a row less.)
fn exhaustive(g: &Gains, k: usize, l: usize, free: Free) -> u64
    requires { Sized k l (cell g.now) }
    ensures { result ≤ k * gain_limit }
{
    if k == 0 {
        return 0;
    }
    let i = k - 1;
    let mut best = exhaustive(g, i, l, free);
    for j in 0..l {
        if free[j] {
            let mut rest = free;
            rest[j] = false;
            let w = g[i * Limits::PLACES + j] + exhaustive(g, i, l, rest);
            best = best.max(w);
        }
    }
    best
}

// The weight of the pairs that are handed on.
fn weigh(matrix: &Matrix, solution: &Assignment) -> u64 {
    let g = matrix.gains;
    let k = matrix.rows;
    let mut w: u64 = 0;
    for i in 0..k {
        if let Some(c) = partner(g, matrix.columns, 0, &solution.column_of, i) {
            w = w.wrapping_add(g[i * Limits::PLACES + c]);
        }
    }
    w
}

// Whether no two of these pairs have the same column, and each column is below l.
fn distinct(matrix: &Matrix, solution: &Assignment) -> bool {
    let k = matrix.rows;
    let l = matrix.columns;
    let mut used = [false; Limits::PLACES];
    for i in 0..k {
        if let Some(c) = partner(matrix.gains, l, 0, &solution.column_of, i) {
            if l <= c || used[c] {
                return false;
            }
            used[c] = true;
        }
    }
    true
}

// Whether the duals of row i and of the columns cover the row's gains.
fn row_covered(matrix: &Matrix, solution: &Assignment, i: usize) -> bool
    requires { i < degree_limit }
{
    let l = matrix.columns;
    (0..l).all(|j| {
        matrix.gains[i * Limits::PLACES + j]
            <= solution.row_duals[i].wrapping_add(solution.column_duals[j])
    })
}

// Whether an answer is right.
fn right(matrix: &Matrix, solution: &Assignment) -> bool
    requires { Answer matrix.now.rows matrix.now.columns (cell matrix.now.gains.now) solution.now.row_duals solution.now.column_duals solution.now.column_of }
{
    let k = matrix.rows;
    let l = matrix.columns;
    let t = solution.total(k, l);
    let greatest = t == exhaustive(matrix.gains, k, l, [true; Limits::PLACES]);
    let made = t == weigh(matrix, solution);
    let covered = (0..k).all(|i| row_covered(matrix, solution, i));
    greatest & made & distinct(matrix, solution) & covered
}

// The columns but c.
fn all_but(c: usize) -> Free
    requires { c < degree_limit }
{
    let mut free = [true; Limits::PLACES];
    free[c] = false;
    free
}

// How many of the weights without a column are right.
fn rests_right(matrix: &Matrix, t: &Weights) -> u64 {
    let k = matrix.rows;
    let l = matrix.columns;
    (0..l)
        .filter(|c| t[*c + 1] == exhaustive(matrix.gains, k, l, all_but(*c)))
        .count() as u64
}

// The weights of the first row alone are those in t.
fn single_right(g: &Gains, l: usize, t: &Weights) -> bool
    requires { l ≤ degree_limit }
{
    let mut counts = [0; Limits::PAIRS + 1];
    let s = row_weights(&mut counts, g, l);
    (0..l + 1).all(|c| t[c] == if c == s.out { s.rest } else { s.whole })
}

// One matrix of k rows and l columns, and its weights without each column, added to the counts.
fn compare(kind: Kind, seed: u64, k: usize, l: usize, n: &mut Count)
    requires { (k ≤ degree_limit) × (l ≤ degree_limit) }
{
    let g = table(kind, seed);
    let matrix = Matrix {
        gains: &g,
        rows: k,
        columns: l,
    };
    // what the arrays hold does not matter
    let mut solution = Assignment {
        row_duals: [5; Limits::PLACES],
        column_duals: [6; Limits::PLACES],
        column_of: [7; Limits::PLACES],
        row_of: [8; Limits::PLACES],
    };
    assignment::solve(&matrix, &mut solution);
    let mut counts = [0; Limits::PAIRS + 1];
    let t = weights(&mut counts, &matrix);
    let same = t[0] == solution.total(k, l);
    let single = k != 1 || single_right(&g, l, &t);
    let whole = right(&matrix, &solution) & same & single;
    n.matrices = n.matrices.wrapping_add(1);
    n.right = n.right.wrapping_add(u64::from(whole));
    n.rests = n.rests.wrapping_add(l as u64);
    n.rests_right = n.rests_right.wrapping_add(rests_right(&matrix, &t));
    n.searches = n.searches.wrapping_add(counts[SEARCHES]);
    n.most = n.most.wrapping_add((k + l) as u64);
}

// Gains of one kind, for each number of rows and of columns from 0 to 5, eight matrices each.
fn run(kind: Kind, seed: u64) -> Count {
    let mut n = Count {
        matrices: 0,
        right: 0,
        rests: 0,
        rests_right: 0,
        searches: 0,
        most: 0,
    };
    let mut s = seed;
    for _ in 0..8 {
        for l in 0..6 {
            for k in 0..6 {
                s = s.wrapping_add(11400714819323198485);
                compare(kind, s, k, l, &mut n);
            }
        }
    }
    n
}

fn report(rt: &impl Print, kind: Kind, seed: u64) -> io::Result<()> {
    let Count {
        matrices,
        right,
        rests,
        rests_right,
        searches,
        most,
    } = run(kind, seed);
    println!(rt;
        "seed {seed}, {kind}: {matrices} matrices, {right} right; {rests} without a column, {rests_right} right; {searches} searches of at most {most}"
    )
}

fn main(rt: HostRuntime) -> io::Result<()> {
    for seed in 1..5 {
        for kind in Kind::ALL {
            report(&rt, kind, seed)?;
        }
    }
    Ok(())
}
