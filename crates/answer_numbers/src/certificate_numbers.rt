//! The answer of writing a certificate as numbers.
ghost use Rattle.std.specs.Prelude.{◌≡◌};
ghost use Rattle.model.specs.Writing.{write_refusal, length_of};

use model::Refusal;

// The answer of writing as two numbers: the item that refused the call, 0 for none, and the certificate's length in bytes, 0 where there is none.
#[repr(C)]
#[derive(Clone, Copy)]
pub struct WriteResult {
    pub refusal: u32,
    pub length: u32,
}

impl From<Result<u32, Refusal>> for WriteResult {
    ghost from_gives = { λ a r. (r.refusal ≡ write_refusal a) × (r.length ≡ length_of a) };

    fn from(answer: Result<u32, Refusal>) -> WriteResult {
        match answer {
            Ok(length) => WriteResult { refusal: 0, length },
            Err(refusal) => WriteResult {
                refusal: refusal.into(),
                length: 0,
            },
        }
    }
}
