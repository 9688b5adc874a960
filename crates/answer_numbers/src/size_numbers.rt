//! The answer to how much to lend as numbers.
ghost use Rattle.std.specs.Prelude.{◌≡◌};
ghost use Rattle.model.specs.Sizes.{sizes_refusal, sizes_count, sizes_work, sizes_length};

use model::{Refusal, Sizes};

// The item that refused the call, 0 for none; the count of subproblems, the work numbers wanted and the certificate's length in bytes, 0 each where it
// was refused.
#[repr(C)]
#[derive(Clone, Copy)]
pub struct SizesResult {
    pub refusal: u32,
    pub subproblems: u32,
    pub work: u32,
    pub certificate: u32,
}

impl From<Result<Sizes, Refusal>> for SizesResult {
    ghost from_gives = { λ a r. (r.refusal ≡ sizes_refusal a) × (r.subproblems ≡ sizes_count a) × (r.work ≡ sizes_work a) × (r.certificate ≡ sizes_length a) };

    fn from(answer: Result<Sizes, Refusal>) -> SizesResult {
        match answer {
            Ok(sizes) => SizesResult {
                refusal: 0,
                subproblems: sizes.subproblems,
                work: sizes.work,
                certificate: sizes.certificate,
            },
            Err(refusal) => SizesResult {
                refusal: refusal.into(),
                subproblems: 0,
                work: 0,
                certificate: 0,
            },
        }
    }
}
