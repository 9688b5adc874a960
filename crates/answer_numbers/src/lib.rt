//! The answers and the caller's record of a job as numbers, which C can hold.
#![tactic(auto)]

pub mod certificate_numbers;
pub mod job_numbers;
pub mod size_numbers;

ghost use Rattle.std.specs.Prelude.{◌≡◌};
ghost use Rattle.model.specs.Match.{refusal_of, weight_of};

use model::Refusal;

// A match's answer as two numbers: the item that refused the call, 0 for none, and the mapping's weight, 0 where there is none.
#[repr(C)]
#[derive(Clone, Copy)]
pub struct MatchResult {
    pub refusal: u32,
    pub weight: i32,
}

impl From<Result<i32, Refusal>> for MatchResult {
    ghost from_gives = { λ a r. (r.refusal ≡ refusal_of a) × (r.weight ≡ weight_of a) };

    fn from(answer: Result<i32, Refusal>) -> MatchResult {
        match answer {
            Ok(weight) => MatchResult { refusal: 0, weight },
            Err(refusal) => MatchResult {
                refusal: refusal.into(),
                weight: 0,
            },
        }
    }
}
