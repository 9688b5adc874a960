//! Where the table, the recorded tree and the found tree stand in the match program's input.
ghost use Rattle.std.specs.Prelude.{◌≡◌, ◌+◌, length};
ghost use Rattle.model.specs.Table.{table_length};
ghost use Rattle.model.specs.Input.{table_part, length_known, tree_length, recorded_part, found_part};
ghost use Rattle.formats.specs.Split.{SplitAt};

use crate::bytes::byte_or_zero;
use crate::marks::is_mark;
use crate::places::tree_size;
use crate::table::table_size;
use lengths::tree_head_length;

// The three parts of an input.
#[derive(Clone, Copy)]
pub struct Parts<'a> {
    pub table: &'a [u8],
    pub recorded: &'a [u8],
    pub found: &'a [u8],
}

fn table_length(input: &[u8]) -> usize
    ensures { result ≡ table_length input.now }
{
    table_size(byte_or_zero(input, 2), byte_or_zero(input, 3))
}

// The count and the first vertex mark say how long a tree is.
fn is_length_known(s: &[u8]) -> bool
    ensures { result ≡ length_known s.now }
{
    let first = tree_head_length();
    if s.len() < first + 2 {
        return false;
    }
    let short = is_mark(s, first, b"\xB1\x02");
    let long = is_mark(s, first, b"\xB1\x07");
    (s[2] != 0) & (short | long)
}

fn tree_length(s: &[u8]) -> usize
    ensures { result ≡ tree_length s.now }
{
    let known = is_length_known(s);
    if !known {
        return s.len();
    }
    tree_size(s, s[2])
}

// The parts of the input, whatever it is: those that the model names, one behind the other.
pub fn split(input: &[u8]) -> Parts<'_>
    ensures table { result.table.now ≡ table_part input.now }
    ensures recorded { result.recorded.now ≡ recorded_part input.now }
    ensures found { result.found.now ≡ found_part input.now }
    ensures at { SplitAt input.now (length result.table.now) (length result.table.now + length result.recorded.now) }
{
    let table_end = table_length(input).min(input.len());
    let (table, trees) = input.split_at(table_end);
    let recorded_end = tree_length(trees).min(trees.len());
    let (recorded, found) = trees.split_at(recorded_end);
    Parts {
        table,
        recorded,
        found,
    }
}
