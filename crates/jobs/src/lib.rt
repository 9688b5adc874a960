//! A job in slices: start, advance and finish (paper 01, "Jobs"), over the record by value. The calls that are lent the record are thin functions over
//! these: crates/pensummer, job_calls.
#![tactic(auto)]

mod delivery;
mod slices;

ghost use Rattle.std.specs.Prelude.{◌≡◌, ◌+◌, ◌≤◌, IfOk};
ghost use Rattle.model.specs.Limits.{subproblem_limit};
ghost use Rattle.model.specs.Refusals.{refusal_in};
ghost use Rattle.model.specs.Jobs.{StartCall, AdvanceCall, advance_of, advance_work, finish_item, FinishCall};
ghost use Rattle.job_items.specs.Items.{early_item};

use crate::delivery::deliver;
use crate::slices::{begun, moved, slice_of};
use job_items::work::work_ok;
use job_items::{early_item, is_left, start_item};
use model::{AdvanceOutcome, JobRecord, Limits, Refusal, StartOutcome};
use plan::Blocks;
use plan::instance::Instance;
use planning::make;
use solver::fill::fill;

// Entry point.
// A start of the record by value: the record after the call beside the answer.
pub fn start_core(
    job: JobRecord,
    table: &[u8],
    recorded: &[u8],
    found: &[u8],
    work: &[i32],
) -> StartOutcome
    ensures { StartCall job table.now recorded.now found.now work.now result }
{
    let answer = start_item(table, recorded, found, work);
    let job = match answer {
        Ok(()) => begun(job, recorded, found),
        Err(_) => job,
    };
    StartOutcome { job, answer }
}

// Solves an advance's slice over the plan, of whose items only 16 is not tested yet, and answers how many subproblems it has.
fn advance_ready(
    on: &Instance,
    job: JobRecord,
    budget: u32,
    work: &mut [i32],
) -> Result<u32, Refusal>
    requires { early_item job on.now.table.now on.now.recorded.now on.now.found.now work.old ≡ 0 }
    ensures answers { (result ≡ (advance_of job on.now.table.now on.now.recorded.now on.now.found.now budget work.old).answer)
        × (work.new ≡ advance_work job on.now.table.now on.now.recorded.now on.now.found.now budget work.old) }
    ensures within { IfOk result (λ count. job.position + count ≤ subproblem_limit) }
{
    let position = job.position;
    let fine = work_ok(on, work, position as usize);
    if !fine {
        return Err(Refusal::WorkNumber);
    }
    let count = slice_of(on, position, budget);
    fill(on, work, position as usize, count as usize);
    Ok(count)
}

// The same, all items tested.
fn advance_slice(
    job: JobRecord,
    table: &[u8],
    recorded: &[u8],
    found: &[u8],
    budget: u32,
    work: &mut [i32],
) -> Result<u32, Refusal>
    ensures answers { (result ≡ (advance_of job table.now recorded.now found.now budget work.old).answer)
        × (work.new ≡ advance_work job table.now recorded.now found.now budget work.old) }
    ensures within { IfOk result (λ count. job.position + count ≤ subproblem_limit) }
{
    early_item(job, table, recorded, found, work)?;
    let mut plan = [[0u8; Limits::PLACES]; Blocks::ALL];
    make(&mut plan, recorded, found);
    let on = Instance {
        table,
        recorded,
        found,
        plan: &plan,
    };
    advance_ready(&on, job, budget, work)
}

// Entry point.
// An advance of the record by value: the record after the call beside the answer. The work numbers are lent.
#[tactic(auto, using(crate::proofs::Theorems::advance_refusal_lem), unfolding(model::specs::Jobs::advance_of, model::specs::Jobs::advance_solves))]
pub fn advance_core(
    job: JobRecord,
    table: &[u8],
    recorded: &[u8],
    found: &[u8],
    budget: u32,
    work: &mut [i32],
) -> AdvanceOutcome
    ensures { AdvanceCall job table.now recorded.now found.now budget work.old work.new result }
{
    let answer = advance_slice(job, table, recorded, found, budget, work);
    let job = match answer {
        Ok(count) => moved(job, count),
        Err(_) => job,
    };
    AdvanceOutcome { job, answer }
}

// The first of a finish's items 16 to 18 that applies, where none before applies.
fn late_item(on: &Instance, job: JobRecord, work: &[i32], mapping: &[u8]) -> Result<(), Refusal>
    requires { early_item job on.now.table.now on.now.recorded.now on.now.found.now work.now ≡ 0 }
    ensures { refusal_in result ≡ finish_item job on.now.table.now on.now.recorded.now on.now.found.now work.now mapping.now }
{
    let fine = work_ok(on, work, job.position as usize);
    if !fine {
        return Err(Refusal::WorkNumber);
    }
    let left = is_left(job, on.recorded, on.found);
    if left {
        return Err(Refusal::JobUnfinished);
    }
    if mapping.len() < on.n() {
        return Err(Refusal::MappingShort);
    }
    Ok(())
}

// A finish over the plan; of its items only 16 to 18 are not tested yet.
fn finish_ready(
    on: &Instance,
    job: JobRecord,
    work: &[i32],
    mapping: &mut [u8],
) -> Result<i32, Refusal>
    requires { early_item job on.now.table.now on.now.recorded.now on.now.found.now work.now ≡ 0 }
    ensures { FinishCall job on.now.table.now on.now.recorded.now on.now.found.now work.now mapping.old mapping.new result }
{
    late_item(on, job, work, mapping)?;
    Ok(deliver(on, work, mapping))
}

// Entry point.
// Finishes a job: a mapping in the first n bytes and its exact weight, a heaviest one over undisturbed memory. The record and the work numbers are
// only read.
pub fn finish(
    job: JobRecord,
    table: &[u8],
    recorded: &[u8],
    found: &[u8],
    work: &[i32],
    mapping: &mut [u8],
) -> Result<i32, Refusal>
    ensures { FinishCall job table.now recorded.now found.now work.now mapping.old mapping.new result }
{
    early_item(job, table, recorded, found, work)?;
    let mut plan = [[0u8; Limits::PLACES]; Blocks::ALL];
    make(&mut plan, recorded, found);
    let on = Instance {
        table,
        recorded,
        found,
        plan: &plan,
    };
    finish_ready(&on, job, work, mapping)
}
