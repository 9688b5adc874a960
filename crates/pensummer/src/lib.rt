//! The C interface: what a C or Rust program calls, as numbers, slices and plain structs. The work is done in the other crates.
#![tactic(auto)]

pub mod certificate_calls;
pub mod job_calls;
pub mod size_calls;

ghost use Rattle.call_numbers.specs.Exported.{Matches};

use answer_numbers::MatchResult;
use call_numbers::match_numbers;

// Entry point.
// The match in one call.
#[unsafe(no_mangle)]
pub extern "C" fn pensummer_match(
    table: &[u8],
    recorded: &[u8],
    found: &[u8],
    work: &mut [i32],
    mapping: &mut [u8],
) -> MatchResult
    ensures { Matches table.now recorded.now found.now work.old mapping.old work.new mapping.new result.refusal result.weight }
{
    match_numbers(table, recorded, found, work, mapping)
}
