//! What the calls work on once the inputs are tested.
ghost use Rattle.std.specs.Prelude.{◌≡◌, ◌≤◌};
ghost use Rattle.model.specs.Limits.{vertex_limit};
ghost use Rattle.model.specs.Tree.{count};
ghost use Rattle.plan.specs.Plan.{Ready};

use crate::Plan;
use formats::tree::vertex_count;

// An instance of the problem: a table and two trees that none of the items 1 to 12, 25 and 26 refuses, and the plan of the two trees.
#[derive(Clone, Copy)]
pub struct Instance<'a> {
    pub table: &'a [u8],
    pub recorded: &'a [u8],
    pub found: &'a [u8],
    pub plan: &'a Plan,
    pub ghost ready: { Ready table.now recorded.now found.now plan.now },
}

impl<'a> Instance<'a> {
    // How many vertices the recorded tree has.
    pub fn n(&self) -> usize
        ensures value { result ≡ count self.now.recorded.now }
        ensures some { 1 ≤ result }
        ensures few { result ≤ vertex_limit }
    {
        vertex_count(self.recorded)
    }

    // How many the found tree has.
    pub fn m(&self) -> usize
        ensures value { result ≡ count self.now.found.now }
        ensures some { 1 ≤ result }
        ensures few { result ≤ vertex_limit }
    {
        vertex_count(self.found)
    }
}
