//! The C interface of the counts of searches, for `bench/`: an archive exports only the functions of its own crate.
#![tactic(auto)]

ghost use Rattle.searches.specs.Calls.{CountCall, TallyCall};

use assignment::Counts;
use model::refusal::refusal_in;
use searches::pairs::Tally;

// Entry point.
// `searches::count_searches`: the item that refused the call, 0 for none.
#[unsafe(no_mangle)]
pub extern "C" fn count_searches(
    table: &[u8],
    recorded: &[u8],
    found: &[u8],
    work: &mut [i32],
    counts: &mut Counts,
) -> u8
    ensures { CountCall table.now recorded.now found.now work.old counts.old work.new counts.new result }
{
    refusal_in(searches::count_searches(table, recorded, found, work, counts))
}

// Entry point.
// `searches::tally_searches`.
#[unsafe(no_mangle)]
pub extern "C" fn tally_searches(
    table: &[u8],
    recorded: &[u8],
    found: &[u8],
    work: &mut [i32],
) -> Tally
    ensures { TallyCall table.now recorded.now found.now work.old work.new result }
{
    searches::tally_searches(table, recorded, found, work)
}
