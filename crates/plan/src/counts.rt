//! Numbers that follow from the vertex counts of two trees.
ghost use Rattle.std.specs.Prelude.{◌*◌, ◌-◌, ◌≤◌, ◌≡◌};
ghost use Rattle.model.specs.Order.{width, subproblems};
ghost use Rattle.model.specs.Limits.{vertex_limit, width_limit, subproblem_limit};
ghost use Rattle.trees.specs.Accepted.{Sound};

use formats::tree::vertex_count;

// The subproblems of trees of n and m vertices: n(3m - 2).
pub fn product(n: usize, m: usize) -> usize
    requires { (n ≤ vertex_limit) × (1 ≤ m) × (m ≤ vertex_limit) }
    ensures { (result ≡ n * (3 * m - 2)) × (result ≤ subproblem_limit) }
{
    n * (3 * m - 2)
}

// How many subproblems one recorded vertex has: 3m - 2.
pub fn width_of(found: &[u8]) -> usize
    requires { Sound found.now }
    ensures { (result ≡ width found.now) × (1 ≤ result) × (result ≤ width_limit) }
{
    3 * vertex_count(found) - 2
}

// The number of subproblems.
pub fn subproblem_count(recorded: &[u8], found: &[u8]) -> usize
    requires sound { Sound recorded.now }
    requires sound_2 { Sound found.now }
    ensures { (result ≡ subproblems recorded.now found.now) × (result ≤ subproblem_limit) }
{
    product(vertex_count(recorded), vertex_count(found))
}
