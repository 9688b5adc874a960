//! The end of a job: a mapping read out of the work numbers, and its exact weight.
ghost use Rattle.std.specs.Prelude.{◌≤◌, length};
ghost use Rattle.model.specs.Tree.{count};
ghost use Rattle.plan.specs.Plan.{Lent};
ghost use Rattle.readout.specs.Read.{WorkFits};
ghost use Rattle.jobs.specs.Delivery.{Delivered};

use mappings::weigh::weigh;
use one_call::top::largest;
use plan::instance::Instance;
use readout::cycle::{clear, read_out};

// Reads a mapping out from the pair with the largest number, the empty one where none is above 0; the answer is its exact weight.
pub(crate) fn deliver(on: &Instance, work: &[i32], mapping: &mut [u8]) -> i32
    requires lent { Lent on.now.recorded.now on.now.found.now work.now }
    requires work_fits { WorkFits on.now.table.now on.now.recorded.now on.now.found.now work.now }
    requires recorded_in_bounds { count on.now.recorded.now ≤ length mapping.old }
    ensures { Delivered on.now.table.now on.now.recorded.now on.now.found.now work.now mapping.old mapping.new result }
{
    let Some(top) = largest(on.recorded, on.found, on.plan, work) else {
        clear(mapping, on.n());
        return 0;
    };
    read_out(on, work, top.u, top.v, mapping);
    weigh(on, mapping)
}
