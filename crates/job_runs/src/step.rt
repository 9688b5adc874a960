//! What a line asks for: its word, with the numbers from its bytes.
use formats::bytes::byte_or_zero;
use job_lines::numbers::{signed_at, unsigned_at};
use model::JobRecord;

// The most bytes that a step's numbers take: those of a record. What a line has beyond them is passed over.
pub(crate) const NUMBERS: usize = 17;

// The calls of a job, an advance with its budget.
#[derive(Clone, Copy)]
pub(crate) enum Call {
    Start,
    Advance(u32),
    Finish,
}

// The steps. `Lend` has how many work numbers and how many mapping bytes, `Number` a place and what is written there.
#[derive(Clone, Copy)]
pub(crate) enum Step {
    Plant,
    Other,
    Lend(u32, u32),
    Record(JobRecord),
    Number(u32, i32),
    View(u32),
    Job(u32),
    Call(Call),
}

fn record_of(s: &[u8]) -> JobRecord {
    JobRecord {
        idle: byte_or_zero(s, 0) == 1,
        n: unsigned_at(s, 1),
        m: unsigned_at(s, 5),
        position: unsigned_at(s, 9),
        total: unsigned_at(s, 13),
    }
}

impl Step {
    // A word counts by its first letter; one that is none of the words is `finish`.
    pub(crate) fn of(word: &[u8], bytes: &[u8]) -> Step {
        let first = unsigned_at(bytes, 0);
        match word.first().copied() {
            Some(b'p') => Step::Plant,
            Some(b'o') => Step::Other,
            Some(b'l') => Step::Lend(first, unsigned_at(bytes, 4)),
            Some(b'r') => Step::Record(record_of(bytes)),
            Some(b'n') => Step::Number(first, signed_at(bytes, 4)),
            Some(b'v') => Step::View(first),
            Some(b'j') => Step::Job(first),
            Some(b's') => Step::Call(Call::Start),
            Some(b'a') => Step::Call(Call::Advance(first)),
            _ => Step::Call(Call::Finish),
        }
    }
}
