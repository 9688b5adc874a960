//! Writing a certificate (the paper's sheet): its items, all work numbers, then the front and a record for each subproblem.
#![tactic(auto)]

mod record;

ghost use Rattle.std.specs.Prelude.{◌≤◌, length};
ghost use Rattle.model.specs.Certificate.{certificate_length};
ghost use Rattle.model.specs.Writing.{WriteCall};
ghost use Rattle.plan.specs.Plan.{Lent};
ghost use Rattle.write.specs.Call.{Left};

use crate::record::put_records;
use job_items::start_item;
use model::{Limits, Refusal};
use one_call::solve_and_read;
use plan::Blocks;
use plan::instance::Instance;
use planning::make;
use put::front::put_front;
use records::{begin, places_of};

// Solves every subproblem, reads a heaviest mapping out, and writes the certificate.
fn solve_and_write(on: &Instance, work: &mut [i32], certificate: &mut [u8])
    requires lent { Lent on.now.recorded.now on.now.found.now work.old }
    requires found_in_bounds { certificate_length on.now.recorded.now on.now.found.now ≤ length certificate.old }
    ensures { Left on.now.table.now on.now.recorded.now on.now.found.now work.old certificate.old work.new certificate.new }
{
    let mut mapping = [Limits::NONE; Limits::ROWS];
    let w = solve_and_read(on, work, &mut mapping);
    put_front(certificate, on.m(), w, &mapping[..on.n()]);
    put_records(on, work, certificate);
}

// Entry point.
// A certificate for the two trees under the table, in the front of `certificate`; all values in order in `work`. Where one of the items 1 to 13, 19, 25 and 26
// applies, nothing is written.
pub fn write_certificate(
    table: &[u8],
    recorded: &[u8],
    found: &[u8],
    work: &mut [i32],
    certificate: &mut [u8],
) -> Result<u32, Refusal>
    ensures { WriteCall table.now recorded.now found.now work.old certificate.old work.new certificate.new result }
{
    start_item(table, recorded, found, work)?;
    let mut plan = [[0u8; Limits::PLACES]; Blocks::ALL];
    make(&mut plan, recorded, found);
    let on = Instance {
        table,
        recorded,
        found,
        plan: &plan,
    };
    let mut places = [[0u32; 2]; Limits::PREFIXES];
    places_of(&mut places, recorded, found, &plan);
    let l = begin(&places, on.n());
    if certificate.len() < l {
        return Err(Refusal::CertificateShort);
    }
    solve_and_write(&on, work, certificate);
    Ok(l as u32)
}
