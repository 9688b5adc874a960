//! The assignment for `bench/`: an archive exports only the functions of its own crate.
#![tactic(auto)]

ghost use Rattle.std.specs.Prelude.{◌≡◌};
ghost use Rattle.assignment.specs.Matching.{cell, best, all};
ghost use Rattle.assignment.specs.State.{Sized};

use assignment::{Assignment, Matrix};
use model::Gains;

// The greatest weight of the table's first k rows and l columns. The caller keeps to the limits.
#[unsafe(no_mangle)]
pub extern "C" fn assignment_total(g: &Gains, k: usize, l: usize) -> u64
    requires { Sized k l (cell g.now) }
    ensures { result ≡ best l (cell g.now) k all }
{
    let matrix = Matrix {
        gains: g,
        rows: k,
        columns: l,
    };
    let mut solution = Assignment::EMPTY;
    assignment::solve(&matrix, &mut solution);
    solution.total(k, l)
}
