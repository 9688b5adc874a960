//! Item 24: the greater of 0 and the largest recorded value with s = v.
ghost use Rattle.std.specs.Prelude.{◌<◌, ◌^◌, ◌≡◌, length};
ghost use Rattle.model.specs.Tree.{count};
ghost use Rattle.model.specs.Certificate.{certificate_length, weight_in, eq_z, value_of};
ghost use Rattle.model.specs.Values.{largest};
ghost use Rattle.records.specs.Places.{Laid};
ghost use Rattle.check_records.specs.Greatest.{most, own_most};

use crate::gains::value_in;
use formats::tree::vertex_count;
use integers::{above_zero, int32_at};
use plan::{Plan, offset, place};
use record_rules::numbers::is_sum;
use records::sheet::RecordRow;
use records::{Places, begin, size};

// Of recorded vertex u.
fn top_of_row(
    recorded: &[u8],
    found: &[u8],
    plan: &Plan,
    places: &Places,
    certificate: &[u8],
    u: u8,
) -> u32
    requires laid { Laid recorded.now found.now plan.now places.now }
    requires certificate_len { length certificate.now ≡ certificate_length recorded.now found.now }
    requires u_bound { u < count recorded.now }
    ensures { (result ≡ own_most recorded.now found.now certificate.now u) × (result < 2 ^ 31) }
{
    let i = place(plan, u);
    let row = RecordRow {
        i,
        first: begin(places, i),
        own: size(plan, i),
    };
    let m = vertex_count(found) as u8;
    let mut top: u32 = 0;
    for v in 0..m {
        let b = offset(plan, v);
        let x = above_zero(value_in(recorded, found, plan, places, certificate, row, v, b));
        top = top.max(x);
    }
    top
}

// Of all recorded vertices.
fn greatest(recorded: &[u8], found: &[u8], plan: &Plan, places: &Places, certificate: &[u8]) -> u32
    requires laid { Laid recorded.now found.now plan.now places.now }
    requires certificate_len { length certificate.now ≡ certificate_length recorded.now found.now }
    ensures { (result ≡ most (own_most recorded.now found.now certificate.now) (count recorded.now)) × (result < 2 ^ 31) }
{
    let n = vertex_count(recorded) as u8;
    let mut all: u32 = 0;
    for u in 0..n {
        let x = top_of_row(recorded, found, plan, places, certificate, u);
        all = all.max(x);
    }
    all
}

// The weight in the head is that number.
pub fn is_greatest(
    recorded: &[u8],
    found: &[u8],
    plan: &Plan,
    places: &Places,
    certificate: &[u8],
) -> bool
    requires laid { Laid recorded.now found.now plan.now places.now }
    requires certificate_len { length certificate.now ≡ certificate_length recorded.now found.now }
    ensures { result ≡ eq_z (weight_in certificate.now) (largest recorded.now found.now (value_of recorded.now found.now certificate.now)) }
{
    let top = greatest(recorded, found, plan, places, certificate);
    is_sum(int32_at(certificate, 4), 0, u64::from(top))
}
