//! The buffers of a run: what they are filled with, and what a call changed in them.
ghost use Rattle.std.specs.Prelude.{◌≡◌, ◌<◌, length, replicate, slice_set, pos};
ghost use Rattle.model.specs.Limits.{vertex_limit, no_vertex, subproblem_limit};

use model::Limits;

// What fills fresh buffers: a number that is no value and that item 16 refuses, a byte that is no partner.
const NUMBER: i32 = Limits::CEILING + 1;

const BYTE: u8 = 200;

// The work numbers and a copy of them, and the mapping buffer.
#[derive(Drop)]
pub struct Memory {
    pub work: [i32; Limits::SUBPROBLEMS],
    pub kept: [i32; Limits::SUBPROBLEMS],
    pub mapping: [u8; Limits::ROWS],
}

// Work numbers that differ from their copy: how many, and the place of the first.
#[derive(Clone, Copy)]
pub(crate) struct Changes {
    pub(crate) count: usize,
    pub(crate) first: usize,
}

impl Memory {
    // Before any input: no buffer is fresh.
    pub fn new() -> Memory
        ensures work { result.work ≡ replicate subproblem_limit (pos 0) }
        ensures kept { result.kept ≡ replicate subproblem_limit (pos 0) }
        ensures mapping { result.mapping ≡ replicate vertex_limit no_vertex }
    {
        Memory {
            work: [0; Limits::SUBPROBLEMS],
            kept: [0; Limits::SUBPROBLEMS],
            mapping: [Limits::NONE; Limits::ROWS],
        }
    }

    pub fn clear_work(&mut self)
        ensures cleared { self.new.work ≡ replicate (length self.old.work) NUMBER }
        ensures rest { (self.new.kept ≡ self.old.kept) × (self.new.mapping ≡ self.old.mapping) }
    {
        self.work.fill(NUMBER);
    }

    pub fn clear_kept(&mut self)
        ensures cleared { self.new.kept ≡ replicate (length self.old.kept) NUMBER }
        ensures rest { (self.new.work ≡ self.old.work) × (self.new.mapping ≡ self.old.mapping) }
    {
        self.kept.fill(NUMBER);
    }

    pub fn clear_mapping(&mut self)
        ensures cleared { self.new.mapping ≡ replicate (length self.old.mapping) BYTE }
        ensures rest { (self.new.work ≡ self.old.work) × (self.new.kept ≡ self.old.kept) }
    {
        self.mapping.fill(BYTE);
    }

    // Copies the work numbers.
    pub fn keep(&mut self)
        ensures copied { self.new.kept ≡ self.old.work }
        ensures rest { (self.new.work ≡ self.old.work) × (self.new.mapping ≡ self.old.mapping) }
    {
        self.kept = self.work;
    }

    // Writes a work number where there is one.
    pub fn put(&mut self, at: usize, x: i32)
        ensures written { at < length self.old.work → self.new.work ≡ slice_set self.old.work at x }
        ensures rest { (self.new.kept ≡ self.old.kept) × (self.new.mapping ≡ self.old.mapping) }
    {
        if at < Limits::SUBPROBLEMS {
            self.work[at] = x;
        }
    }

    pub(crate) fn changes(&self) -> Option<Changes> {
        let first = self
            .work
            .iter()
            .zip(self.kept.iter())
            .position(|(now, before)| now != before)?;
        let differing = self.work.iter().zip(self.kept.iter());
        let count = differing.filter(|(now, before)| now != before).count();
        Some(Changes { count, first })
    }

    // Whether a byte of the mapping buffer from `from` on is not what fills a fresh one.
    pub(crate) fn is_written(&self, from: usize) -> bool {
        self.mapping.iter().skip(from).any(|byte| *byte != BYTE)
    }
}
