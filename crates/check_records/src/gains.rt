//! The gains of a pair's branches, from the values that the certificate itself records for their subproblems.
ghost use Rattle.std.specs.Prelude.{◌+◌, ◌*◌, ◌<◌, ◌≡◌, length};
ghost use Rattle.model.specs.Limits.{pair_limit};
ghost use Rattle.model.specs.Graph.{neighbours};
ghost use Rattle.model.specs.Order.{children, width};
ghost use Rattle.model.specs.Certificate.{certificate_length, value_in, value_of};
ghost use Rattle.plan.specs.Plan.{Pair};
ghost use Rattle.plan.specs.Pairs.{gain_at, RowFilled, Filled};
ghost use Rattle.records.specs.Places.{Laid, RowBegins};
ghost use Rattle.check_records.specs.Gains.{Sits};

use integers::int32_at;
use model::{Gains, Limits};
use plan::weights::{edge_pair, gain_of};
use plan::{
    Plan, behind, child_count, child_edge, child_place, degree, neighbour, neighbour_edge,
    offset as offset_of,
};
use records::sheet::{RecordRow, Sheet};
use records::{Places, record_in};

// The recorded value of a subproblem of x and the row's vertex: its place among those of that vertex is b.
pub(crate) fn value_in(
    recorded: &[u8],
    found: &[u8],
    plan: &Plan,
    places: &Places,
    certificate: &[u8],
    row: RecordRow,
    x: u8,
    b: usize,
) -> i32
    requires laid { Laid recorded.now found.now plan.now places.now }
    requires certificate_len { length certificate.now ≡ certificate_length recorded.now found.now }
    requires begins { RowBegins recorded.now found.now row.i row.first row.own }
    requires sits { Sits found.now x b }
    ensures { result ≡ value_in recorded.now found.now certificate.now (row.i * width found.now + b) }
{
    let q = b - offset_of(plan, x);
    let at = record_in(
        recorded, found, plan, places, row.i, row.first, row.own, x, q,
    );
    int32_at(certificate, at + 2)
}

// The gains of u's i-th child with each neighbour of v, as row i of the table.
fn gain_row(g: &mut Gains, sheet: &Sheet, u: u8, v: u8, i: usize)
    requires g_len { length g.old ≡ pair_limit }
    requires pair { Pair sheet.now.on.now.recorded.now sheet.now.on.now.found.now u v }
    requires i_in_bounds { i < length (children sheet.now.on.now.recorded.now u) }
    ensures { RowFilled (length (neighbours sheet.now.on.now.found.now v)) i (gain_at sheet.now.on.now.table.now sheet.now.on.now.recorded.now sheet.now.on.now.found.now (value_of sheet.now.on.now.recorded.now sheet.now.on.now.found.now sheet.now.certificate.now) u v i) g.old g.new }
{
    let plan = sheet.on.plan;
    let row = sheet.row(child_place(plan, u, i));
    let edge = child_edge(plan, u, i);
    let l = degree(plan, v);
    for j in 0..l {
        let x = neighbour(plan, v, j);
        let b = behind(plan, v, j);
        let y = value_in(
            sheet.on.recorded,
            sheet.on.found,
            plan,
            sheet.places,
            sheet.certificate,
            row,
            x,
            b,
        );
        let t = gain_of(
            edge_pair(sheet.on.table, edge, neighbour_edge(plan, v, j)),
            y,
        );
        g[i * Limits::PLACES + j] = t;
    }
}

// The gains of u's children with v's neighbours, child i with neighbour j at i * PLACES + j.
// `solver::subproblem` fills such a table too, from work numbers: the two stay apart, since the check shares no code with solving.
pub(crate) fn gains(g: &mut Gains, sheet: &Sheet, u: u8, v: u8)
    requires g_len { length g.old ≡ pair_limit }
    requires pair { Pair sheet.now.on.now.recorded.now sheet.now.on.now.found.now u v }
    ensures { Filled (length (children sheet.now.on.now.recorded.now u)) (length (neighbours sheet.now.on.now.found.now v)) (gain_at sheet.now.on.now.table.now sheet.now.on.now.recorded.now sheet.now.on.now.found.now (value_of sheet.now.on.now.recorded.now sheet.now.on.now.found.now sheet.now.certificate.now) u v) g.new }
{
    let n = child_count(sheet.on.plan, u);
    for i in 0..n {
        gain_row(g, sheet, u, v, i);
    }
}
