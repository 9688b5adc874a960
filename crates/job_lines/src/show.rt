//! What is printed of a step.
use crate::memory::Memory;
use console::show::{Partner, Told};
use model::{JobRecord, Refusal};
use std::{fmt, io};

// A job record as it is printed.
#[derive(Clone, Copy)]
pub struct Record(pub JobRecord);

impl fmt::Display for Record {
    fn fmt<W: fmt::Write>(&self, f: &mut fmt::Formatter<W>) -> fmt::Result {
        let JobRecord {
            idle,
            n,
            m,
            position,
            total,
        } = self.0;
        let state = if idle { "idle, " } else { "" };
        write!(f, "{state}n {n}, m {m}, position {position}, total {total}")
    }
}

// The answer of a start as it is printed.
#[derive(Clone, Copy)]
pub struct Started(pub Result<(), Refusal>);

impl fmt::Display for Started {
    fn fmt<W: fmt::Write>(&self, f: &mut fmt::Formatter<W>) -> fmt::Result {
        match self.0 {
            Ok(()) => f.write_str("started"),
            Err(refusal) => write!(f, "refused {refusal}"),
        }
    }
}

// The answer of an advance as it is printed.
#[derive(Clone, Copy)]
pub struct Advanced(pub Result<u32, Refusal>);

impl fmt::Display for Advanced {
    fn fmt<W: fmt::Write>(&self, f: &mut fmt::Formatter<W>) -> fmt::Result {
        match self.0 {
            Ok(solved) => write!(f, "solved {solved}"),
            Err(refusal) => write!(f, "refused {refusal}"),
        }
    }
}

// The first n partners, or that the buffer is as it was; and whether the bytes behind them are.
fn print_mapping(rt: &impl Print, memory: &Memory, n: usize) -> io::Result<()> {
    if !memory.is_written(0) {
        return println!(rt; "; mapping kept");
    }
    print!(rt; "; mapping")?;
    for partner in memory.mapping.iter().take(n) {
        print!(rt; " {}", Partner(*partner))?;
    }
    if memory.is_written(n) {
        println!(rt; ", and bytes behind it")
    } else {
        println!(rt; "")
    }
}

// The first n work numbers.
pub fn print_numbers(rt: &impl Print, memory: &Memory, n: usize) -> io::Result<()> {
    print!(rt; "numbers")?;
    for number in memory.work.iter().take(n) {
        print!(rt; " {number}")?;
    }
    println!(rt; "")
}

// What a call changed.
pub fn print_step(
    rt: &impl Print,
    before: JobRecord,
    after: JobRecord,
    memory: &Memory,
) -> io::Result<()> {
    if before == after {
        print!(rt; "; record kept")?;
    } else {
        print!(rt; "; {}", Record(after))?;
    }
    match memory.changes() {
        None => print!(rt; "; numbers kept")?,
        Some(c) => print!(rt; "; numbers changed: {} from {}", c.count, c.first)?,
    }
    print_mapping(rt, memory, after.n as usize)
}

// A job after its slices, and how many advances solved something.
#[derive(Clone, Copy)]
pub struct Slices {
    pub job: JobRecord,
    pub advances: usize,
}

// What a job in slices answers, against the match in one call, which left its work numbers in the copy.
pub fn print_job(
    rt: &impl Print,
    answer: Result<i32, Refusal>,
    whole: Result<i32, Refusal>,
    run: Slices,
    memory: &Memory,
) -> io::Result<()> {
    print!(rt; "{}, in one call {}", Told(answer), Told(whole))?;
    match memory.changes() {
        None => print!(rt; "; numbers as there")?,
        Some(c) => print!(rt; "; numbers differ: {}", c.count)?,
    }
    println!(rt; "; advances {}; {}", run.advances, Record(run.job))
}
