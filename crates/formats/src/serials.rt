//! Serial numbers, and item 25: a known one stands twice.
ghost use Rattle.std.specs.Prelude.{◌<◌, ◌≡◌};
ghost use Rattle.model.specs.Limits.{vertex_limit};
ghost use Rattle.model.specs.Tree.{serial, serials_differ};
ghost use Rattle.trees.specs.Accepted.{Ends};
ghost use Rattle.formats.specs.Serials.{SerialsTo, new_in};

use crate::places::with_serials;
use crate::tree::Tree;
use integers::word_at;
use model::Limits;

// The serial of vertex v is that of no vertex before it, or unknown. All of them are compared, also behind one that is the same: the compiler then
// compares several at once.
fn is_new(serials: &[u32; Limits::ROWS], v: usize) -> bool
    requires { v < vertex_limit }
    ensures { result ≡ new_in serials.now v }
{
    let own = serials[v];
    let unknown = own == 0;
    if unknown {
        return true;
    }
    let mut ok = true;
    for x in 0..v {
        ok &= serials[x] != own;
    }
    ok
}

impl<'a> Tree<'a> {
    // The serial of vertex v, 0 for an unknown one.
    pub fn serial(&self, v: usize) -> u32
        requires v_lt_n { v < self.now.n }
        ensures { result ≡ serial self.now.bytes.now v }
    {
        if with_serials(self.bytes) {
            word_at(self.bytes, self.records().vertex_start(v) + 3)
        } else {
            0
        }
    }

    // The serials of all vertices.
    fn serials(&self) -> [u32; Limits::ROWS]
        ensures { SerialsTo self.now.bytes.now self.now.n result }
    {
        let mut t = [0u32; Limits::ROWS];
        for v in 0..self.n {
            t[v] = self.serial(v);
        }
        t
    }

    // No known serial stands twice in a tree with serials.
    fn all_new(&self) -> bool
        ensures { result ≡ serials_differ self.now.bytes.now self.now.n }
    {
        let known = self.serials();
        (0..self.n).all(|v| is_new(&known, v))
    }

    // No known serial stands twice.
    pub(crate) fn do_serials_differ(&self) -> bool
        ensures { result ≡ serials_differ self.now.bytes.now self.now.n }
    {
        !with_serials(self.bytes) || self.all_new()
    }
}
