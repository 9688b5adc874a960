//! The pair of vertices with the largest value: where a heaviest mapping has its top.
ghost use Rattle.std.specs.Prelude.{◌+◌};
ghost use Rattle.plan.specs.Plan.{offset_in};
ghost use Rattle.one_call.specs.Top.{TopOf, RowValues, Largest, AllAt};

use formats::tree::vertex_count;
use integers::above_zero;
use plan::counts::width_of;
use plan::{Plan, offset, place};

// A number that is not negative and the pair that has it; of 0, which stands for none while numbers are compared, the pair says nothing.
#[derive(Clone, Copy)]
pub struct Top {
    pub weight: u32,
    pub u: u8,
    pub v: u8,
}

// The greatest of t and of the values of recorded vertex u with the m found vertices, whose subproblems begin at `base`.
fn top_of_row(
    recorded: &[u8],
    found: &[u8],
    plan: &Plan,
    work: &[i32],
    base: usize,
    m: u8,
    u: u8,
    t: Top,
) -> Top
    requires row_values { RowValues recorded.now found.now work.now (offset_in plan.now) base m u }
    requires top_of { TopOf recorded.now found.now work.now u 0 t.weight t.u t.v }
    ensures { TopOf recorded.now found.now work.now (u + 1) 0 result.weight result.u result.v }
{
    let mut top = t;
    for v in 0..m {
        let weight = above_zero(work[base + offset(plan, v)]);
        if top.weight < weight {
            top = Top { weight, u, v };
        }
    }
    top
}

// The pair with the largest value over the work numbers as they are, where one is above 0. It asks for the two trees and their
// plan alone, not for a table.
pub fn largest(recorded: &[u8], found: &[u8], plan: &Plan, work: &[i32]) -> Option<Top>
    requires { AllAt recorded.now found.now work.now plan.now }
    ensures { Largest recorded.now found.now work.now result }
{
    let n = vertex_count(recorded) as u8;
    let m = vertex_count(found) as u8;
    let width = width_of(found);
    let mut top = Top {
        weight: 0,
        u: 0,
        v: 0,
    };
    for u in 0..n {
        let base = place(plan, u) * width;
        top = top_of_row(recorded, found, plan, work, base, m, u, top);
    }
    if top.weight == 0 {
        return None;
    }
    Some(top)
}
