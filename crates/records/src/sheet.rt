//! A certificate of the right length with its instance and the places of its records: where one record begins.
ghost use Rattle.std.specs.Prelude.{◌+◌, ◌*◌, ◌<◌, ◌≤◌, ◌≡◌, length};
ghost use Rattle.model.specs.Lengths.{subproblem_length};
ghost use Rattle.model.specs.Limits.{certificate_limit};
ghost use Rattle.model.specs.Tree.{count};
ghost use Rattle.model.specs.Graph.{neighbours};
ghost use Rattle.model.specs.Order.{width, offset};
ghost use Rattle.model.specs.Certificate.{certificate_length, record_at};
ghost use Rattle.records.specs.Places.{PlacesTo, RowBegins};

use crate::{Places, begin, record_in, size};
use plan::instance::Instance;

// A certificate as long as one of its instance is, and where the records of such a one stand.
#[derive(Clone, Copy)]
pub struct Sheet<'a> {
    pub on: &'a Instance<'a>,
    pub places: &'a Places,
    pub certificate: &'a [u8],
    pub ghost stand: { PlacesTo on.now.recorded.now on.now.found.now (count on.now.recorded.now) places.now },
    pub ghost long: { length certificate.now ≡ certificate_length on.now.recorded.now on.now.found.now },
}

// The records of the i-th vertex in postorder: they begin at `first`, and have `own` bytes beside the duals of v's neighbours.
#[derive(Clone, Copy)]
pub struct RecordRow {
    pub i: usize,
    pub first: usize,
    pub own: usize,
}

impl<'a> Sheet<'a> {
    // Those of the i-th vertex in postorder.
    pub fn row(&self, i: usize) -> RecordRow
        requires { i < count self.now.on.now.recorded.now }
        ensures same { result.i ≡ i }
        ensures begins { RowBegins self.now.on.now.recorded.now self.now.on.now.found.now result.i result.first result.own }
    {
        RecordRow {
            i,
            first: begin(self.places, i),
            own: size(self.on.plan, i),
        }
    }

    // Where the record of the row's vertex, v, and the q-th choice of s for v begins.
    pub fn record_in(&self, row: RecordRow, v: u8, q: usize) -> usize
        requires begins { RowBegins self.now.on.now.recorded.now self.now.on.now.found.now row.i row.first row.own }
        requires v_bound { (v < count self.now.on.now.found.now) × (q ≤ length (neighbours self.now.on.now.found.now v)) }
        ensures { (result ≡ record_at self.now.on.now.recorded.now self.now.on.now.found.now (row.i * width self.now.on.now.found.now + (offset self.now.on.now.found.now v + q))) × (result + subproblem_length 0 0 ≤ certificate_limit) }
    {
        record_in(
            self.on.recorded,
            self.on.found,
            self.on.plan,
            self.places,
            row.i,
            row.first,
            row.own,
            v,
            q,
        )
    }
}
