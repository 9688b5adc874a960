//! The calls as numbers: the covered core of the C interface. `pensummer` holds the functions that a C program finds, each thin over one of these.
#![tactic(auto)]

pub mod certificate_numbers;
pub mod job_numbers;
pub mod size_numbers;

ghost use Rattle.call_numbers.specs.Exported.{Matches};

use answer_numbers::MatchResult;

// The match in one call.
pub fn match_numbers(
    table: &[u8],
    recorded: &[u8],
    found: &[u8],
    work: &mut [i32],
    mapping: &mut [u8],
) -> MatchResult
    ensures { Matches table.now recorded.now found.now work.old mapping.old work.new mapping.new result.refusal result.weight }
{
    let a = one_call::match_trees(table, recorded, found, work, mapping);
    a.into()
}
