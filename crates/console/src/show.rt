//! What is printed of an answer and of a partner.
ghost use Rattle.std.specs.Prelude.{Some};
ghost use Rattle.console.specs.Show.{told, partner_text};

use model::{Limits, Refusal};
use std::fmt;

// The answer of a match as it is printed: the weight, or the number of the item that refuses it.
#[derive(Clone, Copy)]
pub struct Told(pub Result<i32, Refusal>);

// A recorded vertex's partner as it is printed: its number, or a hyphen.
#[derive(Clone, Copy)]
pub struct Partner(pub u8);

impl fmt::Display for Told {
    ghost output = { λ t. Some (told t.0) };

    fn fmt<W: fmt::Write>(&self, f: &mut fmt::Formatter<W>) -> fmt::Result {
        match self.0 {
            Ok(weight) => write!(f, "weight {weight}"),
            Err(refusal) => write!(f, "refused {refusal}"),
        }
    }
}

impl fmt::Display for Partner {
    ghost output = { λ p. Some (partner_text p.0) };

    fn fmt<W: fmt::Write>(&self, f: &mut fmt::Formatter<W>) -> fmt::Result {
        if self.0 == Limits::NONE {
            f.write_str("-")
        } else {
            write!(f, "{}", self.0)
        }
    }
}
