//! Item 23: the rules of one record over what was read for it: of a forbidden pair, and of any other, where each branch's gain is covered by its two duals.
#![tactic(auto)]

pub mod numbers;

ghost use Rattle.std.specs.Prelude.{◌+◌, ◌*◌, ◌<◌, ◌≡◌, length};
ghost use Rattle.foundations.specs.Lists.{every};
ghost use Rattle.model.specs.Bytes.{int32_at};
ghost use Rattle.model.specs.Limits.{degree_limit};
ghost use Rattle.records.specs.Others.{column_in};
ghost use Rattle.record_rules.specs.Cover.{is_covered, row_covered, RowDuals, Duals, Inside, zeros_in, duals_in, record_in};

use crate::numbers::{all_zero, is_sum, none_negative, numbers_in, total_of};
use integers::{int32_at, is_forbidden};
use model::{Gains, Limits, WideRow};
use records::column;
use records::cursor::Counts;

// The record of a subproblem, `at` which place of a certificate it begins: the duals of u's children stand behind the value, then those of the neighbours of
// v other than the q-th choice.
#[derive(Clone, Copy)]
pub struct Record<'a> {
    pub certificate: &'a [u8],
    pub at: usize,
    pub counts: Counts,
    pub q: usize,
    pub ghost inside: { Inside (length certificate.now) at counts.children counts.others },
    pub ghost columns: { (j : _) → j < counts.others → column_in q j < degree_limit },
}

// The gains of child i are covered: y is its dual, `across` are those of the l neighbours other than s.
fn row_covered(g: &Gains, i: usize, y: u64, across: &WideRow, l: usize, q: usize) -> bool
    requires { RowDuals i y across.now l q }
    ensures { result ≡ every (is_covered g.now i y across.now q) l }
{
    let mut ok = true;
    // Gathered: as an `all`, which ends early, the loops here and in `numbers` take a fifth longer.
    for j in 0..l {
        let t = g[i * Limits::PLACES + column(q, j)] <= y + across[j];
        ok &= t;
    }
    ok
}

// The gains of all k children are.
fn all_covered(g: &Gains, below: &WideRow, across: &WideRow, k: usize, l: usize, q: usize) -> bool
    requires { Duals below.now across.now k l q }
    ensures { result ≡ every (row_covered g.now below.now across.now l q) k }
{
    let mut ok = true;
    for i in 0..k {
        let t = row_covered(g, i, below[i], across, l, q);
        ok &= t;
    }
    ok
}

impl<'a> Record<'a> {
    // Where the duals of the children begin.
    fn first(&self) -> usize
        ensures { result ≡ self.now.at + 6 }
    {
        self.at + 6
    }

    // And those of the neighbours.
    fn next(&self) -> usize
        ensures { result ≡ self.now.at + 6 + 4 * self.now.counts.children }
    {
        self.first() + 4 * self.counts.children
    }

    fn value(&self) -> i32
        ensures { result ≡ int32_at self.now.certificate.now (self.now.at + 2) }
    {
        int32_at(self.certificate, self.at + 2)
    }

    // The record of a forbidden pair: the forbidden value, and duals 0.
    fn forbidden_ok(&self) -> bool
        ensures { result ≡ zeros_in self.now.certificate.now self.now.at self.now.counts.children self.now.counts.others }
    {
        let below = all_zero(self.certificate, self.first(), self.counts.children);
        let across = all_zero(self.certificate, self.next(), self.counts.others);
        is_forbidden(self.value()) & (below & across)
    }

    // The record of a pair of weight w with gains g: duals of 0 or more that cover each branch, and the value is the weight plus all duals.
    fn duals_ok(&self, g: &Gains, w: i32) -> bool
        ensures { result ≡ duals_in self.now.certificate.now self.now.at self.now.counts.children self.now.counts.others self.now.q g.now w }
    {
        let Counts {
            children: k,
            others: l,
        } = self.counts;
        let a = none_negative(self.certificate, self.first(), k);
        let b = none_negative(self.certificate, self.next(), l);
        let below = numbers_in(self.certificate, self.first(), k);
        let across = numbers_in(self.certificate, self.next(), l);
        let c = all_covered(g, &below, &across, k, l, self.q);
        let total = total_of(&below, k) + total_of(&across, l);
        let t = is_sum(self.value(), w, total);
        a & (b & (c & t))
    }
}

// The rules of a record, of a pair of weight w with gains g.
pub fn record_ok(record: &Record, g: &Gains, w: i32) -> bool
    ensures { result ≡ record_in record.now.certificate.now record.now.at record.now.counts.children record.now.counts.others record.now.q g.now w }
{
    if is_forbidden(w) {
        return record.forbidden_ok();
    }
    record.duals_ok(g, w)
}
