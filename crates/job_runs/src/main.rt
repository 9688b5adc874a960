//! Runs jobs, one step to a line of standard input: a name, a colon, a word, and bytes in hexadecimal (numbers are 4 bytes, low byte first).
//! Prints each name, and what the step did. A call's line ends with what it changed of the record, the work numbers and the mapping buffer,
//! found by comparing them with a copy. The words:
//!
//! - `plant`: the match program's input; a fresh record, fresh buffers, all of them lent
//! - `other`: another input; the record and the buffers stay
//! - `lend`: how many work numbers and how many bytes of the mapping buffer are lent from now on
//! - `record`: the record's idle mark (a byte), n, m, position, total
//! - `number`: a place and the work number that is written there
//! - `start`, `advance` with a budget, `finish`: the calls
//! - `job` with a budget: the one-call match, then the same as a job in slices of this budget, with a budget of 0 after each slice
//! - `view`: how many work numbers are printed
//!
//! The calls are `start_core`, `advance_core` and `finish`: functions that are lent the record by `&mut` have no callers in covered code.
//! The expected output follows from the papers' rules. A printed mapping is the only one that can be read out of the work numbers.
#![tactic(auto)]

mod calls;
mod plant;
mod step;

use crate::calls::{match_whole, run_job};
use crate::plant::Plant;
use crate::step::{Call, NUMBERS, Step};
use case_lines::{Line, Lines};
use console::show::Told;
use formats::split::Parts;
use job_lines::memory::Memory;
use job_lines::show::{Advanced, Record, Started, print_job, print_numbers, print_step};
use jobs::{advance_core, finish, start_core};
use model::{JobRecord, Limits};
use reading::read_full;
use std::io;

// What the calls work on beside the input and the buffers: how many work numbers and mapping bytes are lent, and the record.
#[derive(Clone, Copy)]
struct State {
    lent: usize,
    room: usize,
    job: JobRecord,
}

// One call with as much of the buffers as is lent, and its answer; gives the record after it.
fn answer(
    rt: &impl Print,
    call: Call,
    st: State,
    parts: Parts<'_>,
    memory: &mut Memory,
) -> io::Result<JobRecord> {
    let work = &mut memory.work[..];
    let mapping = &mut memory.mapping[..];
    let lent = st.lent.min(work.len());
    let room = st.room.min(mapping.len());
    match call {
        Call::Start => {
            let out = start_core(
                st.job,
                parts.table,
                parts.recorded,
                parts.found,
                &work[..lent],
            );
            print!(rt; "{}", Started(out.answer))?;
            Ok(out.job)
        }
        Call::Advance(budget) => {
            let out = advance_core(
                st.job,
                parts.table,
                parts.recorded,
                parts.found,
                budget,
                &mut work[..lent],
            );
            print!(rt; "{}", Advanced(out.answer))?;
            Ok(out.job)
        }
        Call::Finish => {
            let out = finish(
                st.job,
                parts.table,
                parts.recorded,
                parts.found,
                &work[..lent],
                &mut mapping[..room],
            );
            print!(rt; "{}", Told(out))?;
            Ok(st.job)
        }
    }
}

// A call and what it changed.
fn call_step(
    rt: &impl Print,
    call: Call,
    st: State,
    parts: Parts<'_>,
    memory: &mut Memory,
) -> io::Result<State> {
    memory.keep();
    let job = answer(rt, call, st, parts, memory)?;
    print_step(rt, st.job, job, memory)?;
    memory.clear_mapping();
    Ok(State { job, ..st })
}

// The one-call match, and the same as a job.
fn job_step(
    rt: &impl Print,
    budget: u32,
    st: State,
    parts: Parts<'_>,
    memory: &mut Memory,
) -> io::Result<State> {
    let whole = match_whole(parts, memory);
    let run = run_job(st.job, parts, budget, memory);
    let answer = finish(
        run.job,
        parts.table,
        parts.recorded,
        parts.found,
        &memory.work,
        &mut memory.mapping,
    );
    memory.clear_mapping();
    print_job(rt, answer, whole, run, memory)?;
    Ok(State { job: run.job, ..st })
}

// One step of the line.
fn turn(
    rt: &impl Print,
    line: Line<'_>,
    st: State,
    plant: &mut Plant,
    memory: &mut Memory,
) -> io::Result<State> {
    let mut numbers = [0u8; NUMBERS];
    match Step::of(line.word, line.bytes(&mut numbers)) {
        Step::Plant => {
            plant.read(line);
            println!(rt; "input")?;
            memory.clear_work();
            memory.clear_mapping();
            Ok(State {
                lent: Limits::SUBPROBLEMS,
                room: Limits::ROWS,
                job: JobRecord::fresh(),
            })
        }
        Step::Other => {
            plant.read(line);
            println!(rt; "another input")?;
            Ok(st)
        }
        Step::Lend(lent, room) => {
            println!(rt; "lent {lent} and {room}")?;
            Ok(State {
                lent: lent as usize,
                room: room as usize,
                ..st
            })
        }
        Step::Record(job) => {
            println!(rt; "record; {}", Record(job))?;
            Ok(State { job, ..st })
        }
        Step::Number(place, number) => {
            memory.put(place as usize, number);
            println!(rt; "written")?;
            Ok(st)
        }
        Step::View(count) => {
            print_numbers(rt, memory, count as usize)?;
            Ok(st)
        }
        Step::Job(budget) => job_step(rt, budget, st, plant.parts(), memory),
        Step::Call(call) => call_step(rt, call, st, plant.parts(), memory),
    }
}

fn run(rt: &impl Print, input: &[u8]) -> io::Result<()> {
    let mut plant = Plant::new();
    // What `Memory::new` gives, written out: a function's result is copied, which takes as much of the stack again.
    let mut memory = Memory {
        work: [0; Limits::SUBPROBLEMS],
        kept: [0; Limits::SUBPROBLEMS],
        mapping: [Limits::NONE; Limits::ROWS],
    };
    let mut st = State {
        lent: 0,
        room: 0,
        job: JobRecord::fresh(),
    };
    for line in Lines(input) {
        rt.write_all(line.name)?;
        print!(rt; ": ")?;
        st = turn(rt, line, st, &mut plant, &mut memory)?;
    }
    Ok(())
}

fn main(rt: HostRuntime) -> io::Result<()> {
    let mut input = [0u8; 65536];
    let n = read_full(&mut rt.reader(), &mut input)?;
    run(&rt, &input[..n])
}
