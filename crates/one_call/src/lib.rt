//! The match in one call: its items, solving all subproblems, and reading a heaviest mapping out.
#![tactic(auto)]

pub mod top;

ghost use Rattle.std.specs.Prelude.{◌≤◌, ◌-◌, ◌≡◌, length};
ghost use Rattle.model.specs.Tree.{count};
ghost use Rattle.model.specs.Calls.{match_item};
ghost use Rattle.model.specs.Match.{MatchCall};
ghost use Rattle.model.specs.Refusals.{refusal_in};
ghost use Rattle.plan.specs.Plan.{Lent};
ghost use Rattle.one_call.specs.Call.{Solved};

use crate::top::largest;
use formats::tree::vertex_count;
use job_items::start_item;
use model::{Limits, Refusal};
use plan::Blocks;
use plan::counts::subproblem_count;
use plan::instance::Instance;
use planning::make;
use readout::cycle::{clear, read_out};
use solver::fill::fill;

// The first of the items 1 to 13, 18, 25 and 26 that applies.
fn match_item(
    table: &[u8],
    recorded: &[u8],
    found: &[u8],
    work: &[i32],
    mapping: &[u8],
) -> Result<(), Refusal>
    ensures { refusal_in result ≡ match_item table.now recorded.now found.now work.now mapping.now }
{
    start_item(table, recorded, found, work)?;
    if mapping.len() < vertex_count(recorded) {
        return Err(Refusal::MappingShort);
    }
    Ok(())
}

// Solves every subproblem and reads a heaviest mapping out; the answer is its weight.
pub fn solve_and_read(on: &Instance, work: &mut [i32], mapping: &mut [u8]) -> i32
    requires lent { Lent on.now.recorded.now on.now.found.now work.old }
    requires recorded_in_bounds { count on.now.recorded.now ≤ length mapping.old }
    ensures { Solved on.now.table.now on.now.recorded.now on.now.found.now work.old mapping.old work.new mapping.new result }
{
    let count = subproblem_count(on.recorded, on.found);
    fill(on, work, 0, count);
    let Some(top) = largest(on.recorded, on.found, on.plan, work) else {
        clear(mapping, on.n());
        return 0;
    };
    read_out(on, work, top.u, top.v, mapping);
    top.weight as i32
}

// Entry point.
// A heaviest mapping of the two trees under the table, in the first n bytes of `mapping`; all values in order in `work`. Where an item
// applies, nothing is written.
// By the two lemmas any exit that gives the item is proved, so that an edit of it (`refused_as_found`) is refused for what it gives.
#[tactic(auto, using(model::proofs::Refusals::with_own_number, model::proofs::Refusals::number_some))]
pub fn match_trees(
    table: &[u8],
    recorded: &[u8],
    found: &[u8],
    work: &mut [i32],
    mapping: &mut [u8],
) -> Result<i32, Refusal>
    ensures { MatchCall table.now recorded.now found.now work.old mapping.old work.new mapping.new result }
{
    match_item(table, recorded, found, work, mapping)?;
    let mut plan = [[0u8; Limits::PLACES]; Blocks::ALL];
    make(&mut plan, recorded, found);
    let on = Instance {
        table,
        recorded,
        found,
        plan: &plan,
    };
    Ok(solve_and_read(&on, work, mapping))
}
