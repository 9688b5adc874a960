//! Item 20, one record after the other: a mark, and in the head n and m; the certificate's length is tested before (`check_reader`). The marks are the fixed
//! strings C1 01, C1 02 and C1 03. The partners are noted as they are passed.
ghost use Rattle.std.specs.Prelude.{◌+◌, ◌<◌, ◌≤◌, ◌^◌, ◌≡◌, ◌&&◌, eqb, length};
ghost use Rattle.model.specs.Bytes.{byte_at, is_mark};
ghost use Rattle.model.specs.Certificate.{head_mark};
ghost use Rattle.model.specs.Order.{subproblems};
ghost use Rattle.model.specs.Tree.{count};
ghost use Rattle.check_front.specs.Marks.{moved_on, Reading, Marked};

use formats::marks::is_mark;
use formats::tree::vertex_count;
use lengths::{certificate_head_length, partner_length, subproblem_length};
use model::Mapping;
use plan::Plan;
use plan::counts::subproblem_count;
use plan::instance::Instance;
use records::cursor::{Cursor, Step, Walk, counts_of, next};

// How many records a certificate has: the head, a partner for each recorded vertex and a record for each subproblem.
pub fn mark_count(on: &Instance) -> usize
    ensures { result ≡ count on.now.recorded.now + 1 + subproblems on.now.recorded.now on.now.found.now }
{
    1 + on.n() + subproblem_count(on.recorded, on.found)
}

// One record more, of so many bytes from `at` on, `here` if it is as it must be; c is the cursor after it.
fn moved(at: usize, walk: Walk, here: bool, bytes: usize, c: Cursor) -> Step
    requires { at + bytes < 2 ^ 32 }
    ensures { result ≡ moved_on at walk here bytes c }
{
    let walk = Walk {
        ok: walk.ok & here,
        cursor: c,
    };
    Step {
        next: at + bytes,
        walk,
    }
}

// The head at `at`: its mark, then n and m.
fn is_head(z: &[u8], at: usize, n: usize, m: usize) -> bool
    requires { at + 3 < length z.now }
    ensures { result ≡ (is_mark z.now at head_mark && (eqb (byte_at z.now (at + 2)) n && eqb (byte_at z.now (at + 3)) m)) }
{
    let a = is_mark(z, at, b"\xC1\x01");
    a & ((z[at + 2] as usize == n) & (z[at + 3] as usize == m))
}

// The record at `at`, before which so many were passed, and on to the next. A partner is noted in p.
pub fn mark_step(
    recorded: &[u8],
    found: &[u8],
    plan: &Plan,
    p: &mut Mapping,
    z: &[u8],
    at: usize,
    number: usize,
    walk: Walk,
) -> Step
    requires { Reading recorded.now found.now plan.now p.old z.now number at walk }
    ensures { Marked recorded.now found.now p.new z.now (number + 1) result.next result.walk }
{
    let n = vertex_count(recorded);
    if number == 0 {
        let here = is_head(z, at, n, vertex_count(found));
        return moved(at, walk, here, certificate_head_length(), walk.cursor);
    }
    if number <= n {
        let here = is_mark(z, at, b"\xC1\x02");
        p[number - 1] = z[at + 2];
        return moved(at, walk, here, partner_length(), walk.cursor);
    }
    let counts = counts_of(recorded, found, plan, walk.cursor);
    let here = is_mark(z, at, b"\xC1\x03");
    let bytes = subproblem_length(counts.children as u8, counts.others as u8);
    let c = next(recorded, found, plan, walk.cursor);
    moved(at, walk, here, bytes, c)
}
