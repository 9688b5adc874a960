//! The tests that every call begins with: the table, the recorded tree, the found tree.
ghost use Rattle.std.specs.Prelude.{◌≡◌};
ghost use Rattle.model.specs.Calls.{input_item};
ghost use Rattle.model.specs.Refusals.{refusal_in};

use crate::table::{Table, table_item};
use crate::tree::tree_item;
use model::Refusal;

// The first of the items 1 to 12, 25 and 26 that applies in the order tested.
pub fn input_item(table: &[u8], recorded: &[u8], found: &[u8]) -> Result<(), Refusal>
    ensures { refusal_in result ≡ input_item table.now recorded.now found.now }
{
    table_item(table)?;
    let table = Table { bytes: table };
    let k = table.vertex_labels();
    let l = table.edge_labels();
    tree_item(recorded, k, l).map_err(Refusal::Recorded)?;
    tree_item(found, k, l).map_err(Refusal::Found)
}
