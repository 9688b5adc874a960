//! The caller's record of a job and the answers of start and advance as numbers. Any bytes may stand in that record.
ghost use Rattle.std.specs.Prelude.{◌≡◌};
ghost use Rattle.model.specs.Jobs.{start_refusal, advance_refusal, advance_count};
ghost use Rattle.answer_numbers.specs.Memory.{record_of, memory_of, memory_after};

use model::refusal::refusal_in;
use model::{JobRecord, Refusal};

// The caller's record of a job: 0 in `idle` says that it is not idle, any other number that it is.
#[repr(C)]
#[derive(Clone, Copy)]
pub struct JobMemory {
    pub idle: u32,
    pub n: u32,
    pub m: u32,
    pub position: u32,
    pub total: u32,
}

// The record that it stands for.
impl From<JobMemory> for JobRecord {
    ghost from_gives = { λ x j. j ≡ record_of x };

    #[tactic(auto, unfolding(crate::specs::Memory::record_of))]
    fn from(x: JobMemory) -> JobRecord {
        JobRecord {
            idle: x.idle != 0,
            n: x.n,
            m: x.m,
            position: x.position,
            total: x.total,
        }
    }
}

impl From<JobRecord> for JobMemory {
    ghost from_gives = { λ j x. x ≡ memory_of j };

    #[tactic(auto, unfolding(crate::specs::Memory::memory_of))]
    fn from(job: JobRecord) -> JobMemory {
        JobMemory {
            idle: u32::from(job.idle),
            n: job.n,
            m: job.m,
            position: job.position,
            total: job.total,
        }
    }
}

// What a call leaves: where it was refused the old memory, also its `idle` number, else the new record.
pub fn memory_after(refusal: u32, old: JobMemory, job: JobRecord) -> JobMemory
    ensures { result ≡ memory_after refusal old job }
{
    if refusal != 0 { old } else { job.into() }
}

// A start's answer as a number: the item that refused the call, 0 for none.
pub fn start_number(answer: Result<(), Refusal>) -> u32
    ensures { result ≡ start_refusal answer }
{
    u32::from(refusal_in(answer))
}

// An advance's answer as two numbers: the item that refused the call, 0 for none, and how many subproblems were solved.
#[repr(C)]
#[derive(Clone, Copy)]
pub struct AdvanceResult {
    pub refusal: u32,
    pub count: u32,
}

impl From<Result<u32, Refusal>> for AdvanceResult {
    ghost from_gives = { λ a r. (r.refusal ≡ advance_refusal a) × (r.count ≡ advance_count a) };

    fn from(answer: Result<u32, Refusal>) -> AdvanceResult {
        match answer {
            Ok(count) => AdvanceResult { refusal: 0, count },
            Err(refusal) => AdvanceResult {
                refusal: refusal.into(),
                count: 0,
            },
        }
    }
}
