//! The items that a job's calls test beyond the inputs: 13 to 17. Item 16 is in `work`.
#![tactic(auto)]

pub mod work;

ghost use Rattle.std.specs.Prelude.{◌≡◌, eqb};
ghost use Rattle.model.specs.Tree.{count};
ghost use Rattle.model.specs.Jobs.{count_ok, record_ok, same_trees, is_left, start_item};
ghost use Rattle.model.specs.Refusals.{refusal_in};
ghost use Rattle.trees.specs.Accepted.{Sound};
ghost use Rattle.job_items.specs.Items.{early_item};

use formats::bytes::byte_or_zero;
use formats::inputs::input_item;
use model::{JobRecord, Refusal};
use plan::counts::{product, subproblem_count};

// The first of the items 1 to 13, 25 and 26 that applies.
pub fn start_item(table: &[u8], recorded: &[u8], found: &[u8], work: &[i32]) -> Result<(), Refusal>
    ensures { refusal_in result ≡ start_item table.now recorded.now found.now work.now }
{
    input_item(table, recorded, found)?;
    if work.len() < subproblem_count(recorded, found) {
        return Err(Refusal::WorkShort);
    }
    Ok(())
}

// A record's count may be a tree's.
fn count_ok(n: u32) -> bool
    ensures { result ≡ count_ok n }
{
    (1 <= n) & (n <= (model::Limits::VERTICES as u32))
}

// Item 14 does not apply. The counts are tested before they are multiplied.
fn record_ok(job: JobRecord) -> bool
    ensures { result ≡ record_ok job }
{
    let n_ok = count_ok(job.n);
    let m_ok = count_ok(job.m);
    let fine = !job.idle & (n_ok & m_ok);
    if !fine {
        return false;
    }
    (job.position as usize) <= product(job.n as usize, job.m as usize)
}

// The record's count is that of the tree.
fn same_count(n: u32, tree: &[u8]) -> bool
    ensures { result ≡ eqb n (count tree.now) }
{
    n == (byte_or_zero(tree, 2) as u32)
}

// Item 15 does not apply.
fn same_trees(job: JobRecord, recorded: &[u8], found: &[u8]) -> bool
    ensures { result ≡ same_trees job recorded.now found.now }
{
    let n_same = same_count(job.n, recorded);
    let m_same = same_count(job.m, found);
    n_same & m_same
}

// The first of the items 1 to 15, 25 and 26 that applies in the order tested.
pub fn early_item(
    job: JobRecord,
    table: &[u8],
    recorded: &[u8],
    found: &[u8],
    work: &[i32],
) -> Result<(), Refusal>
    ensures { refusal_in result ≡ early_item job table.now recorded.now found.now work.now }
{
    start_item(table, recorded, found, work)?;
    let fine = record_ok(job);
    if !fine {
        return Err(Refusal::JobRecord);
    }
    let same = same_trees(job, recorded, found);
    if !same {
        return Err(Refusal::JobTrees);
    }
    Ok(())
}

// Item 17 applies: the job has subproblems left.
pub fn is_left(job: JobRecord, recorded: &[u8], found: &[u8]) -> bool
    requires sound { Sound recorded.now }
    requires sound_2 { Sound found.now }
    ensures { result ≡ is_left job recorded.now found.now }
{
    (job.position as usize) < subproblem_count(recorded, found)
}
