//! Postorder of a tree by its table of neighbours, and each vertex's place in it. The laws of accepted trees are in specs/.
#![tactic(auto)]

ghost use Rattle.std.specs.Prelude.{ℕ, ◌<◌, List, [], ◌∷◌, ◌++◌};
ghost use Rattle.foundations.specs.Lists.{Holds};
ghost use Rattle.trees.specs.Visits.{post, OrderOf, Different, Placed};
ghost use Rattle.model.specs.Limits.{vertex_limit, no_vertex};

use model::{Limits, PlaceTable, VertexTable};

// Vertices in an order: the first `len` places of `at`, and `NONE` in the others.
// No ArrayVec: the plan reads `at` as a table by place, and a full order takes no more and does not fail, which ArrayVec would leave to be written here.
#[derive(Drop)]
pub struct Order {
    pub at: VertexTable,
    pub len: usize,
}

impl Order {
    // One vertex more. Where it is full, nothing changes.
    fn push(&mut self, x: u8)
        ensures { (l : List ℕ) → Holds vertex_limit no_vertex l self.old.at self.old.len → Holds vertex_limit no_vertex (l ++ (x ∷ [])) self.new.at self.new.len }
    {
        if self.len < Limits::ROWS {
            self.at[self.len] = x;
            self.len += 1;
        }
    }
}

// What lies below v, away from `from`, and then v, to a depth of k, behind the vertices that the order holds.
fn visit(t: &PlaceTable, v: u8, from: u8, k: usize, order: &mut Order)
    requires { v < vertex_limit }
    ensures { (l : List ℕ) → Holds vertex_limit no_vertex l order.old.at order.old.len → Holds vertex_limit no_vertex (l ++ post t.now k v from) order.new.at order.new.len }
{
    if k == 0 {
        return;
    }
    for w in t[v as usize] {
        if (w < Limits::VERTICES) & (w != from) {
            visit(t, w, v, k - 1, order);
        }
    }
    order.push(v);
}

// The vertices in postorder from vertex 0, children ascending.
pub fn postorder(t: &PlaceTable) -> Order
    ensures { OrderOf t.now result.at result.len }
{
    let mut order = Order {
        at: [Limits::NONE; Limits::ROWS],
        len: 0,
    };
    visit(t, 0, 0, Limits::ROWS, &mut order);
    order
}

// Each vertex's place in an order of different vertices.
pub fn places(o: Order) -> VertexTable
    requires { Different o.at o.len }
    ensures { Placed o.at o.len result }
{
    let mut p = [Limits::NONE; Limits::ROWS];
    let len = o.len;
    for i in 0..len {
        let x = o.at[i];
        p[x as usize] = i as u8;
    }
    p
}
