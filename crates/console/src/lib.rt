//! The match program's work on one input: the parts of the input, the match, and what is printed of it.
#![tactic(auto)]

pub mod show;

ghost use Rattle.std.specs.Prelude.{◌≡◌};
ghost use Rattle.model.specs.Tree.{count};
ghost use Rattle.model.specs.Input.{table_part, recorded_part, found_part};
ghost use Rattle.model.specs.Match.{MatchCall};
ghost use Rattle.console.specs.Room.{PartsLeave};

use crate::show::{Partner, Told};
use formats::bytes::byte_or_zero;
use formats::split::{Parts, split};
use model::Refusal;
use one_call::match_trees;
use std::io;

// The match of the three parts of an input.
fn match_input(input: &[u8], work: &mut [i32], mapping: &mut [u8]) -> Result<i32, Refusal>
    ensures { MatchCall (table_part input.now) (recorded_part input.now) (found_part input.now) work.old mapping.old work.new mapping.new result }
{
    let Parts {
        table,
        recorded,
        found,
    } = split(input);
    match_trees(table, recorded, found, work, mapping)
}

// How many vertices the recorded part of the input names, 0 where its head is cut off.
fn recorded_count(input: &[u8]) -> usize
    ensures { result ≡ count (recorded_part input.now) }
{
    usize::from(byte_or_zero(split(input).recorded, 2))
}

// A line for each recorded vertex: its number, a space, its partner or a hyphen.
fn print_partners(rt: &impl Print, partners: &[u8]) -> io::Result<()> {
    for (vertex, partner) in partners.iter().enumerate() {
        println!(rt; "{vertex} {}", Partner(*partner))?;
    }
    Ok(())
}

// Entry point.
// Matches the input and prints the weight and every recorded vertex's partner, or the number of the item that refuses it; answers with an error where
// not all was printed. It leaves what the match leaves.
pub fn print_match(
    rt: &impl Print,
    input: &[u8],
    work: &mut [i32],
    mapping: &mut [u8],
) -> io::Result<()>
    ensures { PartsLeave input.now work.old mapping.old work.new mapping.new }
{
    let answer = match_input(input, work, mapping);
    println!(rt; "{}", Told(answer))?;
    match answer {
        Ok(_) => print_partners(rt, &mapping[..recorded_count(input)]),
        Err(_) => Ok(()),
    }
}
