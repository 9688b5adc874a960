//! How much to lend, with the answer as numbers.
ghost use Rattle.model.specs.Sizes.{SizesNumbers};

use answer_numbers::size_numbers::SizesResult;

pub fn sizes_numbers(table: &[u8], recorded: &[u8], found: &[u8]) -> SizesResult
    ensures { SizesNumbers table.now recorded.now found.now result.refusal result.subproblems result.work result.certificate }
{
    let a = sizes::sizes(table, recorded, found);
    a.into()
}
