//! The C interface of how much to lend.
ghost use Rattle.model.specs.Sizes.{SizesNumbers};

use answer_numbers::size_numbers::SizesResult;
use call_numbers::size_numbers::sizes_numbers;

// Entry point.
// How much to lend for the two trees under the table. Nothing is solved.
#[unsafe(no_mangle)]
pub extern "C" fn pensummer_sizes(table: &[u8], recorded: &[u8], found: &[u8]) -> SizesResult
    ensures { SizesNumbers table.now recorded.now found.now result.refusal result.subproblems result.work result.certificate }
{
    sizes_numbers(table, recorded, found)
}
