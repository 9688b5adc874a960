//! Item 23, one record after the other: the rules of a subproblem's record. The gains of a pair of vertices are read once, for every choice of s.
ghost use Rattle.std.specs.Prelude.{◌+◌, ◌≡◌, length};
ghost use Rattle.model.specs.Certificate.{certificate_length};
ghost use Rattle.model.specs.Tree.{count};
ghost use Rattle.records.specs.Cursor.{CursorAt};
ghost use Rattle.records.specs.Places.{PlacesTo};
ghost use Rattle.check_records.specs.Records.{PairRead};
ghost use Rattle.check_records.specs.Walk.{Walked, Ruling};

use crate::gains::gains;
use lengths::subproblem_length;
use model::Gains;
use plan::in_order;
use plan::instance::Instance;
use plan::weights::vertex_pair;
use record_rules::{Record, record_ok};
use records::Places;
use records::cursor::{Step, Walk, counts_of, next};
use records::sheet::Sheet;

// What is read of a pair of vertices at its first record, that of s = v: its weight, and the gains of its branches.
#[derive(Clone, Copy)]
pub struct PairGains {
    pub weight: i32,
    pub gains: Gains,
}

// Reads the pair that the cursor is at, where this is its first record.
fn read_pair(on: &Instance, places: &Places, pair: &mut PairGains, z: &[u8], at: usize, walk: Walk)
    requires stand { PlacesTo on.now.recorded.now on.now.found.now (count on.now.recorded.now) places.now }
    requires long { length z.now ≡ certificate_length on.now.recorded.now on.now.found.now }
    requires ruling { Ruling pair.old.gains pair.old.weight on.now.table.now on.now.recorded.now on.now.found.now on.now.plan.now z.now at walk }
    ensures { PairRead on.now.table.now on.now.recorded.now on.now.found.now on.now.plan.now z.now walk.cursor.i walk.cursor.v pair.new.gains pair.new.weight }
{
    let inside = walk.cursor.q != 0;
    if inside {
        return;
    }
    let u = in_order(on.plan, walk.cursor.i);
    let sheet = Sheet {
        on,
        places,
        certificate: z,
    };
    gains(&mut pair.gains, &sheet, u, walk.cursor.v);
    pair.weight = vertex_pair(on.table, on.plan, u, walk.cursor.v);
}

// The record at `at`, and on to the next.
pub fn rule_step(
    on: &Instance,
    places: &Places,
    pair: &mut PairGains,
    z: &[u8],
    at: usize,
    walk: Walk,
) -> Step
    requires stand { PlacesTo on.now.recorded.now on.now.found.now (count on.now.recorded.now) places.now }
    requires long { length z.now ≡ certificate_length on.now.recorded.now on.now.found.now }
    requires ruling { Ruling pair.old.gains pair.old.weight on.now.table.now on.now.recorded.now on.now.found.now on.now.plan.now z.now at walk }
    ensures { (k : _) → CursorAt on.now.found.now k walk.cursor.i walk.cursor.v walk.cursor.q → Walked pair.new.gains pair.new.weight on.now.table.now on.now.recorded.now on.now.found.now on.now.plan.now z.now (k + 1) result.next result.walk }
{
    read_pair(on, places, pair, z, at, walk);
    let counts = counts_of(on.recorded, on.found, on.plan, walk.cursor);
    let record = Record {
        certificate: z,
        at,
        counts,
        q: walk.cursor.q,
    };
    let here = record_ok(&record, &pair.gains, pair.weight);
    let bytes = subproblem_length(counts.children as u8, counts.others as u8);
    let walk = Walk {
        ok: walk.ok & here,
        cursor: next(on.recorded, on.found, on.plan, walk.cursor),
    };
    Step {
        next: at + bytes,
        walk,
    }
}
