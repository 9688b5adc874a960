//! Counts the path searches for the plants on standard input, one after the other: two bytes, the length with its low byte first, and as many bytes of a
//! table and two trees. Prints a line for each: the searches and the most that there can be, the looks, how many pairs of vertices reach their own bound,
//! the most searches that a pair takes, and whether the count of all and the tally by pairs, both by the same code, agree. Or `refused` and the
//! number of the item.
//!
//! The stored plants: single vertices, single edges, paths of three from the middle, stars of degree 8, equal paths, all these of one label and weight 1;
//! random trees, hubs in a row and balanced hubs, with random labels and weights; balanced hubs of one label; a found star of degree 9.
#![tactic(auto)]

ghost use Rattle.std.specs.Prelude.{length};
ghost use Rattle.std.specs.Iterator.{at_most};

use assignment::{Counts, SEARCHES};
use formats::bytes::byte_or_zero;
use formats::split::{Parts, split};
use model::Limits;
use reading::read_full;
use searches::pairs::Tally;
use searches::{count_searches, tally_searches};
use std::io;

// The plants of an input that are not read yet.
#[derive(Drop)]
struct Plants<'a>(&'a [u8]);

impl<'a> Iterator for Plants<'a> {
    type Item = &'a [u8];

    ghost remaining = { λ s. at_most (length s.0.now) };

    fn next(&mut self) -> Option<&'a [u8]> {
        if self.0.is_empty() {
            return None;
        }
        let len = u16::from_le_bytes([byte_or_zero(self.0, 0), byte_or_zero(self.0, 1)]);
        let rest = self.0.get(2..).unwrap_or(&[]);
        let end = usize::from(len).min(rest.len());
        self.0 = &rest[end..];
        Some(&rest[..end])
    }
}

// The line of a plant that is not refused, with the count of all and the tally by pairs.
fn print_counts(rt: &impl Print, plant: Parts<'_>, counts: &Counts, t: Tally) -> io::Result<()> {
    let n = byte_or_zero(plant.recorded, 2);
    let m = byte_or_zero(plant.found, 2);
    let searches = counts[SEARCHES];
    let looks = counts
        .iter()
        .take(Limits::PAIRS)
        .fold(0, |sum: u64, count| sum.wrapping_add(*count));
    let Tally {
        most,
        reached,
        greatest,
        ..
    } = t;
    let not = if (t.searches == searches) & (t.looks == looks) {
        ""
    } else {
        "NOT "
    };
    print!(rt; "{n} by {m}: {searches} searches of at most {most}, {looks} looks; ")?;
    print!(rt; "{reached} pairs reach their bound, the most is {greatest}; ")?;
    println!(rt; "{not}the same pair by pair")
}

fn run_plant(rt: &impl Print, input: &[u8], work: &mut [i32]) -> io::Result<()> {
    let plant = split(input);
    let mut counts = [0u64; Limits::PAIRS + 1];
    let answer = count_searches(plant.table, plant.recorded, plant.found, work, &mut counts);
    let t = tally_searches(plant.table, plant.recorded, plant.found, work);
    if let Err(refusal) = answer {
        return println!(rt; "refused {refusal}");
    }
    print_counts(rt, plant, &counts, t)
}

fn run(rt: &impl Print, input: &[u8]) -> io::Result<()> {
    let mut work = [0i32; Limits::SUBPROBLEMS];
    for plant in Plants(input) {
        run_plant(rt, plant, &mut work)?;
    }
    Ok(())
}

fn main(rt: HostRuntime) -> io::Result<()> {
    let mut input = [0u8; 65536];
    let n = read_full(&mut rt.reader(), &mut input)?;
    run(&rt, &input[..n])
}
