//! The calls of a job by value, with the caller's record and the answers as numbers.
ghost use Rattle.call_numbers.specs.Exported.{Starts, Advances, Finishes};
ghost use Rattle.answer_numbers.specs.Memory.{record_of};

use answer_numbers::MatchResult;
use answer_numbers::job_numbers::{AdvanceResult, JobMemory, memory_after, start_number};
use model::JobRecord;

// What a start leaves and answers: the memory after the call, and the item that refused it, 0 for none.
#[derive(Clone, Copy)]
pub struct StartNumbers {
    pub job: JobMemory,
    pub refusal: u32,
}

pub fn start_numbers(
    job: JobMemory,
    table: &[u8],
    recorded: &[u8],
    found: &[u8],
    work: &[i32],
) -> StartNumbers
    ensures { Starts job table.now recorded.now found.now work.now result.job result.refusal }
{
    let held = JobRecord::from(job);
    let out = jobs::start_core(held, table, recorded, found, work);
    let refusal = start_number(out.answer);
    let left = memory_after(refusal, job, out.job);
    StartNumbers { job: left, refusal }
}

// What an advance leaves and answers.
#[derive(Clone, Copy)]
pub struct AdvanceNumbers {
    pub job: JobMemory,
    pub result: AdvanceResult,
}

pub fn advance_numbers(
    job: JobMemory,
    table: &[u8],
    recorded: &[u8],
    found: &[u8],
    budget: u32,
    work: &mut [i32],
) -> AdvanceNumbers
    ensures { Advances job table.now recorded.now found.now budget work.old result.job work.new result.result.refusal result.result.count }
{
    let held = JobRecord::from(job);
    let out = jobs::advance_core(held, table, recorded, found, budget, work);
    let result = AdvanceResult::from(out.answer);
    let left = memory_after(result.refusal, job, out.job);
    AdvanceNumbers { job: left, result }
}

pub fn finish_result(
    job: JobMemory,
    table: &[u8],
    recorded: &[u8],
    found: &[u8],
    work: &[i32],
    mapping: &mut [u8],
) -> MatchResult
    ensures { Finishes (record_of job) table.now recorded.now found.now work.now mapping.old mapping.new result.refusal result.weight }
{
    let held = JobRecord::from(job);
    let a = jobs::finish(held, table, recorded, found, work, mapping);
    a.into()
}
