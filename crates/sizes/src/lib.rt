//! How much to lend (paper 02, [1]): the count of subproblems, the work numbers wanted and a certificate's length, from the table and the two trees alone.
//! Nothing here solves. What the numbers are good for: crates/lending.
#![tactic(auto)]

ghost use Rattle.std.specs.Prelude.{◌≤◌, ◌≡◌};
ghost use Rattle.model.specs.Limits.{square_limit, certificate_limit};
ghost use Rattle.model.specs.Tree.{count};
ghost use Rattle.model.specs.Certificate.{squares, certificate_length};
ghost use Rattle.model.specs.Sizes.{SizesCall};
ghost use Rattle.trees.specs.Accepted.{Sound};

use formats::inputs::input_item;
use formats::tree::{Tree, vertex_count};
use lengths::{certificate_head_length, partner_length, subproblem_length};
use model::{Refusal, Sizes};
use plan::counts::{subproblem_count, width_of};

// The sum of the squares of the degrees of a tree's vertices.
fn square_sum(found: &[u8]) -> usize
    requires { Sound found.now }
    ensures { (result ≡ squares found.now (count found.now)) × (result ≤ square_limit) }
{
    let m = vertex_count(found);
    let tree = Tree { bytes: found, n: m };
    let d = tree.degrees();
    d[..m]
        .iter()
        .map(|x| usize::from(*x) * usize::from(*x))
        .sum()
}

// The length of a certificate of the two trees: the head, the partners, the records without their duals, and 4 bytes for each dual.
fn certificate_length(recorded: &[u8], found: &[u8]) -> usize
    requires sound { Sound recorded.now }
    requires sound_2 { Sound found.now }
    ensures { (result ≡ certificate_length recorded.now found.now) × (result ≤ certificate_limit) }
{
    let n = vertex_count(recorded);
    let all = subproblem_count(recorded, found);
    let width = width_of(found);
    let squares = square_sum(found);
    certificate_head_length()
        + partner_length() * n
        + subproblem_length(0, 0) * all
        + 4 * ((n - 1) * width)
        + 4 * (n * squares)
}

// Entry point.
// How much to lend for the two trees under the table, where none of the items 1 to 12, 25 and 26 applies.
// By these any exit that gives the item is proved, so that an edit of it (`item_13`) is refused for what it gives.
#[tactic(auto, using(model::proofs::Refusals::with_own_number, model::proofs::Refusals::number_some), unfolding(model::specs::Sizes::sizes_of, model::specs::Sizes::unless_refused))]
pub fn sizes(table: &[u8], recorded: &[u8], found: &[u8]) -> Result<Sizes, Refusal>
    ensures { SizesCall table.now recorded.now found.now result }
{
    input_item(table, recorded, found)?;
    let count = subproblem_count(recorded, found) as u32;
    let length = certificate_length(recorded, found) as u32;
    Ok(Sizes {
        subproblems: count,
        work: count,
        certificate: length,
    })
}
