//! Runs cases through the match, one to a line of standard input: a name, a colon, `input`, and the match program's input in hexadecimal.
//! Prints each name, a colon, and on the lines below it what the match program prints for that input. The expected output follows from the
//! papers' rules: a heaviest mapping is the only one, but where a name says `one of`; there it is the program's choice among as many as the name says.
#![tactic(auto)]

use case_lines::Lines;
use console::print_match;
use model::Limits;
use reading::read_full;
use std::io;

fn run(rt: &impl Print, input: &[u8]) -> io::Result<()> {
    let mut buffer = [0u8; 8192];
    let mut work = [0i32; Limits::SUBPROBLEMS];
    let mut mapping = [Limits::NONE; Limits::ROWS];
    for line in Lines(input) {
        rt.write_all(line.name)?;
        println!(rt; ":")?;
        print_match(rt, line.bytes(&mut buffer), &mut work, &mut mapping)?;
    }
    Ok(())
}

fn main(rt: HostRuntime) -> io::Result<()> {
    // the stored input has more than 65,536 bytes
    let mut input = [0u8; 131072];
    let n = read_full(&mut rt.reader(), &mut input)?;
    run(&rt, &input[..n])
}
