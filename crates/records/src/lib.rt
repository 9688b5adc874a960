//! Where a certificate's records stand: its length, where each row of records begins, and where one record does; going from one record to the next. What a
//! record has of the neighbours of v: those other than s.
#![tactic(auto)]

pub mod cursor;
pub mod sheet;

ghost use Rattle.std.specs.Prelude.{◌+◌, ◌*◌, ◌<◌, ◌≤◌, ◌≡◌, length};
ghost use Rattle.model.specs.Lengths.{subproblem_length};
ghost use Rattle.model.specs.Limits.{vertex_limit, degree_limit, certificate_limit, prefix_limit};
ghost use Rattle.model.specs.Tree.{count};
ghost use Rattle.model.specs.Graph.{neighbours};
ghost use Rattle.model.specs.Order.{width, offset};
ghost use Rattle.model.specs.Certificate.{partner_at, record_at};
ghost use Rattle.plan.specs.Plan.{child_count_in, order_in};
ghost use Rattle.certificate.specs.Places.{others_before};
ghost use Rattle.records.specs.Places.{begin_in, squares_in, Inputs, SquaresTo, Laid, RowBegins};
ghost use Rattle.records.specs.Others.{others_of, column_in};

use formats::tree::vertex_count;
use lengths::{certificate_head_length, partner_length, subproblem_length};
use model::Limits;
use plan::counts::width_of;
use plan::{Plan, child_count, degree, in_order, offset as offset_of};

// ---- the neighbours of v other than s

// How many a vertex of degree d has, where s is the q-th choice.
pub fn others_of(d: usize, q: usize) -> usize
    requires { q ≤ d }
    ensures { result ≡ others_of d q }
{
    if q == 0 { d } else { d - 1 }
}

// The place of the j-th of them among the neighbours.
pub fn column(q: usize, j: usize) -> usize
    requires { j < degree_limit }
    ensures { result ≡ column_in q j }
{
    if q == 0 {
        return j;
    }
    if j + 1 < q {
        return j;
    }
    j + 1
}

// Their number over the first q choices of s.
fn others_before(d: usize, q: usize) -> usize
    requires { (d ≤ degree_limit) × (q ≤ d) }
    ensures { (result ≡ others_before d q) × (result ≤ vertex_limit) }
{
    if q == 0 {
        return 0;
    }
    d + (q - 1) * (d - 1)
}

// ---- places

// Row i says where the records of the i-th vertex in postorder begin, and what the squares of the degrees of the first i found vertices add up to. A
// certificate's length fits 32 bits.
pub type Places = [[u32; 2]; Limits::PREFIXES];

// Where the records of the i-th vertex in postorder begin.
pub fn begin(places: &Places, i: usize) -> usize
    requires { i ≤ vertex_limit }
    ensures { result ≡ begin_in places.now i }
{
    places[i][0] as usize
}

// The sum of the squares of the degrees of the found vertices before v.
fn squares(places: &Places, v: usize) -> usize
    requires { v ≤ vertex_limit }
    ensures { result ≡ squares_in places.now v }
{
    places[v][1] as usize
}

// What a record of the i-th vertex in postorder has beside the duals of v's neighbours: mark, value, a dual for each child.
pub fn size(plan: &Plan, i: usize) -> usize
    requires { (i < vertex_limit) × (order_in plan.now i < vertex_limit) × (child_count_in plan.now (order_in plan.now i) ≤ degree_limit) }
    ensures { result ≡ subproblem_length (child_count_in plan.now (order_in plan.now i)) 0 }
{
    let children = child_count(plan, in_order(plan, i));
    subproblem_length(children as u8, 0)
}

// Where the records of a certificate of n recorded vertices begin: after the head and n partners.
pub fn records_begin(n: usize) -> usize
    requires { n ≤ vertex_limit }
    ensures { result ≡ partner_at n }
{
    certificate_head_length() + partner_length() * n
}

// The sums of squares, each in its place.
fn square_sums(p: &mut Places, recorded: &[u8], found: &[u8], plan: &Plan)
    requires p_len { length p.old ≡ prefix_limit }
    requires inputs { Inputs recorded.now found.now plan.now }
    ensures { SquaresTo found.now (count found.now) p.new }
{
    let m = vertex_count(found);
    p[0] = [0, 0];
    let mut sum: usize = 0;
    for v in 0..m {
        let d = degree(plan, v as u8);
        sum += d * d;
        p[v + 1] = [0, sum as u32];
    }
}

// Where the records stand, over whatever stood there.
pub fn places_of(p: &mut Places, recorded: &[u8], found: &[u8], plan: &Plan)
    requires p_len { length p.old ≡ prefix_limit }
    requires inputs { Inputs recorded.now found.now plan.now }
    ensures { Laid recorded.now found.now plan.now p.new }
{
    let n = vertex_count(recorded);
    let w = width_of(found);
    square_sums(p, recorded, found, plan);
    let all = squares(p, vertex_count(found));
    let mut at = records_begin(n);
    p[0] = [at as u32, 0];
    for i in 0..n {
        at += w * size(plan, i) + 4 * all;
        let s = p[i + 1][1];
        p[i + 1] = [at as u32, s];
    }
}

// Where the record of the i-th vertex in postorder, v, and the q-th choice of s for v begins; the vertex's records begin at `first` and have `own` bytes
// beside the duals of v's neighbours.
pub fn record_in(
    recorded: &[u8],
    found: &[u8],
    plan: &Plan,
    places: &Places,
    i: usize,
    first: usize,
    own: usize,
    v: u8,
    q: usize,
) -> usize
    requires laid { Laid recorded.now found.now plan.now places.now }
    requires row_begins { RowBegins recorded.now found.now i first own }
    requires v_bound { (v < count found.now) × (q ≤ length (neighbours found.now v)) }
    ensures { (result ≡ record_at recorded.now found.now (i * width found.now + (offset found.now v + q))) × (result + subproblem_length 0 0 ≤ certificate_limit) }
{
    let o = others_before(degree(plan, v), q);
    first + (offset_of(plan, v) + q) * own + 4 * (squares(places, v as usize) + o)
}
