//! The C interface of jobs: the job's record is lent by `&mut` to start and to advance, thin functions over a covered core that takes it by value, and
//! by `&` to finish. Any bytes may stand in that record.
ghost use Rattle.std.specs.Prelude.{◌≡◌};
ghost use Rattle.model.specs.Jobs.{fresh_record};
ghost use Rattle.call_numbers.specs.Exported.{Starts, Advances, Finishes};
ghost use Rattle.answer_numbers.specs.Memory.{record_of, memory_of};

use answer_numbers::MatchResult;
use answer_numbers::job_numbers::{AdvanceResult, JobMemory};
use call_numbers::job_numbers::{advance_numbers, finish_result, start_numbers};
use model::JobRecord;

// Entry point.
// A record of no job.
#[unsafe(no_mangle)]
pub extern "C" fn pensummer_fresh() -> JobMemory
    ensures { result ≡ memory_of fresh_record }
{
    JobRecord::fresh().into()
}

// Entry point.
// Starts the job of the lent record, also over an earlier job: the item that refused the call, 0 for none.
#[unsafe(no_mangle)]
pub extern "C" fn pensummer_start(
    job: &mut JobMemory,
    table: &[u8],
    recorded: &[u8],
    found: &[u8],
    work: &[i32],
) -> u32
    ensures { Starts job.old table.now recorded.now found.now work.now job.new result }
{
    let out = start_numbers(*job, table, recorded, found, work);
    *job = out.job;
    out.refusal
}

// Entry point.
// Advances the job of the lent record: solves the smaller of the budget and what is left.
#[unsafe(no_mangle)]
pub extern "C" fn pensummer_advance(
    job: &mut JobMemory,
    table: &[u8],
    recorded: &[u8],
    found: &[u8],
    budget: u32,
    work: &mut [i32],
) -> AdvanceResult
    ensures { Advances job.old table.now recorded.now found.now budget work.old job.new work.new result.refusal result.count }
{
    let out = advance_numbers(*job, table, recorded, found, budget, work);
    *job = out.job;
    out.result
}

// Entry point.
// Finishes the job of the lent record, which is only read: a mapping in the first n bytes and its exact weight.
#[unsafe(no_mangle)]
pub extern "C" fn pensummer_finish(
    job: &JobMemory,
    table: &[u8],
    recorded: &[u8],
    found: &[u8],
    work: &[i32],
    mapping: &mut [u8],
) -> MatchResult
    ensures { Finishes (record_of job.now) table.now recorded.now found.now work.now mapping.old mapping.new result.refusal result.weight }
{
    finish_result(*job, table, recorded, found, work, mapping)
}
