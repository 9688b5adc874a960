//! Reads cases from standard input, one to a line: a name, a colon, `table` or `recorded`, and bytes in hexadecimal. Prints each name and the
//! number of the item that turns the bytes down, 0 for none. A tree is read with K = 2 and L = 1, and as a found tree too.
#![tactic(auto)]

use case_lines::Lines;
use formats::table::table_item;
use formats::tree::tree_item;
use model::refusal::{Refusal, refusal_in};
use reading::read_full;
use std::io;

// What the readers say of the bytes under a line's word.
fn print_item(rt: &impl Print, word: &[u8], bytes: &[u8]) -> io::Result<()> {
    if word.starts_with(b"t") {
        println!(rt; ": {}", refusal_in(table_item(bytes)))
    } else {
        let tree = tree_item(bytes, 2, 1);
        let recorded = refusal_in(tree.map_err(Refusal::Recorded));
        println!(rt;
            ": {recorded}, found {}",
            refusal_in(tree.map_err(Refusal::Found))
        )
    }
}

fn run(rt: &impl Print, input: &[u8]) -> io::Result<()> {
    let mut buffer = [0u8; 8192];
    for line in Lines(input) {
        rt.write_all(line.name)?;
        print_item(rt, line.word, line.bytes(&mut buffer))?;
    }
    Ok(())
}

fn main(rt: HostRuntime) -> io::Result<()> {
    let mut input = [0u8; 65536];
    let n = read_full(&mut rt.reader(), &mut input)?;
    run(&rt, &input[..n])
}
