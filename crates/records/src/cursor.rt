//! Going from record to record in their order: which subproblem's record comes next, and the counts that its length hangs on.
ghost use Rattle.std.specs.Prelude.{◌≡◌};
ghost use Rattle.records.specs.Cursor.{CursorIn, Follows, Counted, walk_first};

use crate::others_of;
use formats::tree::vertex_count;
use plan::{Plan, child_count, degree, in_order};

// The record of the i-th vertex in postorder, v, and the q-th choice of s for v.
#[derive(Clone, Copy)]
pub struct Cursor {
    pub i: usize,
    pub v: u8,
    pub q: usize,
}

// The cursor of the next subproblem; after the last, i is the number of recorded vertices.
pub fn next(recorded: &[u8], found: &[u8], plan: &Plan, c: Cursor) -> Cursor
    requires { CursorIn recorded.now found.now plan.now c.i c.v c.q }
    ensures { Follows found.now c.i c.v c.q result.i result.v result.q }
{
    if c.q < degree(plan, c.v) {
        return Cursor {
            i: c.i,
            v: c.v,
            q: c.q + 1,
        };
    }
    if (c.v as usize) + 1 < vertex_count(found) {
        return Cursor {
            i: c.i,
            v: c.v + 1,
            q: 0,
        };
    }
    Cursor {
        i: c.i + 1,
        v: 0,
        q: 0,
    }
}

// How far a walk over a certificate is: whether each record that was passed is as it must be, and the cursor of the subproblem whose record comes next.
#[derive(Clone, Copy)]
pub struct Walk {
    pub ok: bool,
    pub cursor: Cursor,
}

impl Walk {
    // None is passed.
    pub fn first() -> Walk
        ensures { result ≡ walk_first }
    {
        Walk {
            ok: true,
            cursor: Cursor { i: 0, v: 0, q: 0 },
        }
    }
}

// Where the next record begins, and how far the walk is there.
#[derive(Clone, Copy)]
pub struct Step {
    pub next: usize,
    pub walk: Walk,
}

// The children of u, and the neighbours of v other than s.
#[derive(Clone, Copy)]
pub struct Counts {
    pub children: usize,
    pub others: usize,
}

pub fn counts_of(recorded: &[u8], found: &[u8], plan: &Plan, c: Cursor) -> Counts
    requires { CursorIn recorded.now found.now plan.now c.i c.v c.q }
    ensures { Counted recorded.now found.now plan.now c.i c.v c.q result.children result.others }
{
    let children = child_count(plan, in_order(plan, c.i));
    let others = others_of(degree(plan, c.v), c.q);
    Counts { children, others }
}
