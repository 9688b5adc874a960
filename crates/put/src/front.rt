//! Storing the front of a certificate: the head, and a partner for each recorded vertex.
ghost use Rattle.std.specs.Prelude.{◌+◌, ◌≤◌, length};
ghost use Rattle.model.specs.Certificate.{partner_at};
ghost use Rattle.model.specs.Lengths.{certificate_head_length, partner_length};
ghost use Rattle.model.specs.Limits.{vertex_limit};
ghost use Rattle.put.specs.Front.{HeadPut, PartnerPut, PartnersPut, FrontPut};

use crate::put_mark;
use integers::encode;
use lengths::{certificate_head_length, partner_length};

// Stores the head: the two counts and the weight.
fn put_head(d: &mut [u8], n: usize, m: usize, w: i32)
    requires certificate_head_length_in_bounds { certificate_head_length ≤ length d.old }
    requires n_le_vertex_limit { (n ≤ vertex_limit) × (m ≤ vertex_limit) }
    ensures { HeadPut n m w d.old d.new }
{
    put_mark(d, 0, b"\xC1\x01");
    d[2] = n as u8;
    d[3] = m as u8;
    encode(d, 4, w);
}

// Stores one partner.
fn put_partner(d: &mut [u8], at: usize, p: u8)
    requires { at + partner_length ≤ length d.old }
    ensures { PartnerPut at p d.old d.new }
{
    put_mark(d, at, b"\xC1\x02");
    d[at + 2] = p;
}

// Stores the partners, one after the other.
fn put_partners(d: &mut [u8], partners: &[u8])
    requires n_in_bounds { partner_at (length partners.now) ≤ length d.old }
    requires n_le_vertex_limit { length partners.now ≤ vertex_limit }
    ensures { PartnersPut (length partners.now) partners.now d.old d.new }
{
    let mut at = certificate_head_length();
    for p in partners {
        put_partner(d, at, *p);
        at += partner_length();
    }
}

// Stores the head and the partners, of which there are as many as recorded vertices; m is the number of found vertices.
pub fn put_front(d: &mut [u8], m: usize, w: i32, partners: &[u8])
    requires n_in_bounds { partner_at (length partners.now) ≤ length d.old }
    requires n_le_vertex_limit { (length partners.now ≤ vertex_limit) × (m ≤ vertex_limit) }
    ensures { FrontPut (length partners.now) m w partners.now d.old d.new }
{
    put_head(d, partners.len(), m, w);
    put_partners(d, partners);
}
