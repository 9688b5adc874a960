//! The match in one call, and a job in slices of one budget.
use formats::split::Parts;
use job_lines::memory::Memory;
use job_lines::show::Slices;
use jobs::{advance_core, start_core};
use model::{JobRecord, Limits, Refusal};
use one_call::match_trees;

// The match in one call, over fresh work numbers, which become the copy; the mapping buffer is cleared after it.
pub(crate) fn match_whole(parts: Parts<'_>, memory: &mut Memory) -> Result<i32, Refusal> {
    memory.clear_kept();
    let answer = match_trees(
        parts.table,
        parts.recorded,
        parts.found,
        &mut memory.kept,
        &mut memory.mapping,
    );
    memory.clear_mapping();
    answer
}

// An advance; the record after it, and whether it solved something.
fn advance(
    job: JobRecord,
    parts: Parts<'_>,
    budget: u32,
    memory: &mut Memory,
) -> (JobRecord, bool) {
    let out = advance_core(
        job,
        parts.table,
        parts.recorded,
        parts.found,
        budget,
        &mut memory.work,
    );
    let solved = out.answer.is_ok_and(|count| count != 0);
    (out.job, solved)
}

// A job over fresh work numbers, up to its finish: slices until one solves nothing; no job has more than SUBPROBLEMS. After each slice comes an advance
// with a budget of 0, which must solve nothing.
pub(crate) fn run_job(
    job: JobRecord,
    parts: Parts<'_>,
    budget: u32,
    memory: &mut Memory,
) -> Slices {
    memory.clear_work();
    let begun = start_core(job, parts.table, parts.recorded, parts.found, &memory.work);
    let mut job = begun.job;
    for advances in 0..=Limits::SUBPROBLEMS {
        let (between, solved) = advance(job, parts, budget, memory);
        let (after, more) = advance(between, parts, 0, memory);
        job = after;
        if more | !solved {
            return Slices { job, advances };
        }
    }
    Slices {
        job,
        advances: Limits::SUBPROBLEMS + 1,
    }
}
