//! Reading a mapping out of work numbers: a pair of vertices lists its branch pairs, and a branch pair lists the pair behind it.
ghost use Rattle.std.specs.Prelude.{◌<◌, ◌≤◌, ◌≡◌, ◌≢◌, ◌++◌, length, drop, replicate};
ghost use Rattle.model.specs.Limits.{no_vertex};
ghost use Rattle.model.specs.Tree.{count};
ghost use Rattle.model.specs.Values.{Subproblem};
ghost use Rattle.plan.specs.Plan.{Lent};
ghost use Rattle.readout.specs.Read.{Read, Room};
ghost use Rattle.readout.specs.CycleLaws.{ReadOut};

use model::Limits;
use plan::instance::Instance;
use plan::{child, child_count};
use solver::subproblem::{Scratch, Vertices, choice};

// Writes v as u's partner, and what the branch pairs of (u, v) with s give; no path from u down has more than `depth` vertices.
// The scratch space is lent for the work of each choice, whatever stood there: it stands once, and not at every depth.
#[cycle(list_branch_list_pair)]
fn list_pair(
    scratch: &mut Scratch,
    on: &Instance,
    work: &[i32],
    at: Vertices,
    depth: usize,
    mapping: &mut [u8],
)
    requires lent { Lent on.now.recorded.now on.now.found.now work.now }
    requires subproblem { Subproblem on.now.recorded.now on.now.found.now at.u at.v at.s }
    requires room { Room on.now.recorded.now at.u depth mapping.old }
    ensures { Read on.now.table.now on.now.recorded.now on.now.found.now work.now at.u at.v at.s mapping.old mapping.new }
{
    mapping[at.u as usize] = at.v;
    let mates = choice(scratch, on, work, at);
    let n = child_count(on.plan, at.u);
    for i in 0..n {
        let below = Vertices {
            u: child(on.plan, at.u, i),
            v: mates[i],
            s: at.v,
        };
        list_branch(scratch, on, work, below, depth - 1, mapping);
    }
}

// A branch pair: the pair behind it, and nothing where its found vertex is 255.
#[cycle(list_branch_list_pair)]
fn list_branch(
    scratch: &mut Scratch,
    on: &Instance,
    work: &[i32],
    at: Vertices,
    depth: usize,
    mapping: &mut [u8],
)
    requires lent { Lent on.now.recorded.now on.now.found.now work.now }
    requires subproblem { at.v ≢ no_vertex → Subproblem on.now.recorded.now on.now.found.now at.u at.v at.s }
    requires room { Room on.now.recorded.now at.u depth mapping.old }
    ensures { Read on.now.table.now on.now.recorded.now on.now.found.now work.now at.u at.v at.s mapping.old mapping.new }
{
    // 255 and no option: a byte of the mapping is 255 too, and `Read` says of both at once that they are the same.
    if at.v != Limits::NONE {
        list_pair(scratch, on, work, at, depth, mapping);
    }
}

// Writes 255, for no partner, into the first n bytes.
pub fn clear(mapping: &mut [u8], n: usize)
    requires { n ≤ length mapping.old }
    ensures { mapping.new ≡ replicate n no_vertex ++ drop n mapping.old }
{
    mapping[..n].fill(Limits::NONE);
}

// Reads the pair (u, v) out into the first bytes, one for each recorded vertex.
pub fn read_out(on: &Instance, work: &[i32], u: u8, v: u8, mapping: &mut [u8])
    requires lent { Lent on.now.recorded.now on.now.found.now work.now }
    requires u_bound { (u < count on.now.recorded.now) × (v < count on.now.found.now) }
    requires recorded_in_bounds { count on.now.recorded.now ≤ length mapping.old }
    ensures { ReadOut on.now.table.now on.now.recorded.now on.now.found.now work.now u v mapping.old mapping.new }
{
    let n = on.n();
    clear(mapping, n);
    let at = Vertices { u, v, s: v };
    list_pair(&mut Scratch::new(), on, work, at, n, mapping);
}
