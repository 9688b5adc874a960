//! The match program: reads at most 8,192 bytes of standard input, that is a table, a recorded tree and a found tree, and prints the weight of a
//! heaviest mapping and each recorded vertex's partner, or `refused` and the number of the item that turns the input down. What cannot be read or printed
//! is said on standard error, and the exit status is 1 then.
#![tactic(auto)]

use console::print_match;
use model::Limits;
use reading::read_full;
use std::io;
use std::process::ExitCode;

// Says that standard output takes nothing more, and why: in words, without the system's number.
fn say_unwritten(rt: &(impl Eprint + Alloc), e: &io::Error) -> io::Result<()> {
    let text = format!(in rt.alloc(); "{e}")?;
    let reason = text
        .split_once(" (os error ")
        .map_or(text.as_str(), |(reason, _)| reason);
    eprintln!(rt; "matcher: standard output: {reason}")
}

fn main(rt: HostRuntime) -> io::Result<ExitCode> {
    let mut input = [0u8; 8192];
    let n = read_full(&mut rt.reader(), &mut input)?;
    let mut work = [0i32; Limits::SUBPROBLEMS];
    let mut mapping = [Limits::NONE; Limits::ROWS];
    match print_match(&rt, &input[..n], &mut work, &mut mapping) {
        Ok(()) => Ok(ExitCode::SUCCESS),
        Err(e) => {
            say_unwritten(&rt, &e)?;
            Ok(ExitCode::FAILURE)
        }
    }
}
