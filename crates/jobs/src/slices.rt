//! The numbers of a slice: how many subproblems an advance solves, and the record after it.
ghost use Rattle.std.specs.Prelude.{◌+◌, ◌-◌, ◌≤◌, min, ◌≡◌};
ghost use Rattle.model.specs.Limits.{subproblem_limit};
ghost use Rattle.model.specs.Order.{subproblems};
ghost use Rattle.model.specs.Jobs.{started, advanced};

use formats::bytes::byte_or_zero;
use model::JobRecord;
use plan::counts::subproblem_count;
use plan::instance::Instance;

// The smaller of the budget and what is left.
pub(crate) fn slice_of(on: &Instance, position: u32, budget: u32) -> u32
    requires { position ≤ subproblems on.now.recorded.now on.now.found.now }
    ensures { (result ≡ min budget (subproblems on.now.recorded.now on.now.found.now - position)) × (position + result ≤ subproblem_limit) }
{
    let all = subproblem_count(on.recorded, on.found) as u32;
    budget.min(all - position)
}

// The record of a job that begins.
pub(crate) fn begun(job: JobRecord, recorded: &[u8], found: &[u8]) -> JobRecord
    ensures { result ≡ started job recorded.now found.now }
{
    let n = u32::from(byte_or_zero(recorded, 2));
    let m = u32::from(byte_or_zero(found, 2));
    JobRecord {
        idle: false,
        n,
        m,
        position: 0,
        total: job.total,
    }
}

// The record after so many subproblems.
#[tactic(auto, unfolding(model::specs::Jobs::advanced))]
pub(crate) fn moved(job: JobRecord, count: u32) -> JobRecord
    requires { job.position + count ≤ subproblem_limit }
    ensures { result ≡ advanced job count }
{
    // The total stops at its limit.
    let total = job.total.saturating_add(count);
    JobRecord {
        idle: job.idle,
        n: job.n,
        m: job.m,
        position: job.position + count,
        total,
    }
}
