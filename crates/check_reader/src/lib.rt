//! The certificate's check with a reader that carries the certificate along and goes from record to record (paper 01, "The sheet"): two walks, each a loop over
//! a plain step on the bytes and a number, `mark_step` and `rule_step`. The items are tested in their order. `check_certificate` takes byte buffers from C;
//! an archive has its own crate's functions only, so that a C program finds it as `pensummer_check` (crates/pensummer).
#![tactic(auto)]

ghost use Rattle.std.specs.Prelude.{◌≡◌, length};
ghost use Rattle.foundations.specs.Lists.{every};
ghost use Rattle.model.specs.Certificate.{subproblem_ok, check_of};
ghost use Rattle.model.specs.Calls.{input_item};
ghost use Rattle.model.specs.Limits.{vertex_limit};
ghost use Rattle.model.specs.Order.{subproblems};
ghost use Rattle.model.specs.Tree.{count};
ghost use Rattle.model.specs.Refusals.{refusal_in};
ghost use Rattle.records.specs.Places.{PlacesTo};
ghost use Rattle.check_front.specs.Marks.{AllRead};
ghost use Rattle.check_reader.specs.Items.{records_item};

use check_front::marks::{mark_count, mark_step};
use check_front::weighing::mapping_item;
use check_records::rules::{PairGains, rule_step};
use check_records::top::is_greatest;
use formats::inputs::input_item;
use model::refusal::refusal_in;
use model::{Limits, Mapping, Refusal};
use plan::Blocks;
use plan::counts::subproblem_count;
use plan::instance::Instance;
use planning::make;
use records::cursor::Walk;
use records::sheet::Sheet;
use records::{Places, begin, places_of};

// A certificate and the place where the next of it is read.
#[derive(Drop)]
pub struct Reader<'a> {
    pub certificate: &'a [u8],
    pub at: usize,
}

// The first walk, item 20: the head, partner by partner, record by record, whether each is as it must be. The partners are noted in p.
fn marks(sheet: &Sheet, p: &mut Mapping) -> bool
    requires { length p.old ≡ vertex_limit }
    ensures { AllRead sheet.now.on.now.recorded.now sheet.now.on.now.found.now p.new sheet.now.certificate.now result }
{
    let on = sheet.on;
    let mut reader = Reader {
        certificate: sheet.certificate,
        at: 0,
    };
    let mut walk = Walk::first();
    let count = mark_count(on);
    for number in 0..count {
        let step = mark_step(
            on.recorded,
            on.found,
            on.plan,
            p,
            reader.certificate,
            reader.at,
            number,
            walk,
        );
        reader.at = step.next;
        walk = step.walk;
    }
    walk.ok
}

// The second walk, item 23: record by record, whether each keeps the rules.
fn rules(sheet: &Sheet) -> bool
    ensures { result ≡ every (subproblem_ok sheet.now.on.now.table.now sheet.now.on.now.recorded.now sheet.now.on.now.found.now sheet.now.certificate.now) (subproblems sheet.now.on.now.recorded.now sheet.now.on.now.found.now) }
{
    let on = sheet.on;
    let mut reader = Reader {
        certificate: sheet.certificate,
        at: begin(sheet.places, 0),
    };
    let mut walk = Walk::first();
    let mut pair = PairGains {
        weight: 0,
        gains: [0u64; Limits::PAIRS],
    };
    let count = subproblem_count(on.recorded, on.found);
    for _number in 0..count {
        let step = rule_step(
            on,
            sheet.places,
            &mut pair,
            reader.certificate,
            reader.at,
            walk,
        );
        reader.at = step.next;
        walk = step.walk;
    }
    walk.ok
}

// The items 23 and 24, after those before them: the first that applies.
fn records_item(sheet: &Sheet) -> Result<(), Refusal>
    ensures { refusal_in result ≡ records_item sheet.now.on.now.table.now sheet.now.on.now.recorded.now sheet.now.on.now.found.now sheet.now.certificate.now }
{
    if !rules(sheet) {
        return Err(Refusal::CertificateRecord);
    }
    if !is_greatest(
        sheet.on.recorded,
        sheet.on.found,
        sheet.on.plan,
        sheet.places,
        sheet.certificate,
    ) {
        return Err(Refusal::CertificateAnswer);
    }
    Ok(())
}

// The items 20 to 24: the first that applies. The length is tested first, so that no read goes past the end: it is where the row after the last
// would begin.
fn certificate_item(on: &Instance, places: &Places, certificate: &[u8]) -> Result<(), Refusal>
    requires { PlacesTo on.now.recorded.now on.now.found.now (count on.now.recorded.now) places.now }
    ensures { refusal_in result ≡ check_of on.now.table.now on.now.recorded.now on.now.found.now certificate.now }
{
    if certificate.len() != begin(places, on.n()) {
        return Err(Refusal::CertificateShape);
    }
    let sheet = Sheet {
        on,
        places,
        certificate,
    };
    let mut partners = [Limits::NONE; Limits::ROWS];
    if !marks(&sheet, &mut partners) {
        return Err(Refusal::CertificateShape);
    }
    mapping_item(on, certificate, &partners)?;
    records_item(&sheet)
}

// The items 20 to 24 of inputs that no item before them refuses: makes their plan and the places. A function of its own, so that what it makes is cleared
// once, behind the test of the inputs.
fn planned_item(
    table: &[u8],
    recorded: &[u8],
    found: &[u8],
    certificate: &[u8],
) -> Result<(), Refusal>
    requires { input_item table.now recorded.now found.now ≡ 0 }
    ensures { refusal_in result ≡ check_of table.now recorded.now found.now certificate.now }
{
    let mut plan = [[0u8; Limits::PLACES]; Blocks::ALL];
    make(&mut plan, recorded, found);
    let on = Instance {
        table,
        recorded,
        found,
        plan: &plan,
    };
    let mut places = [[0u32; 2]; Limits::PREFIXES];
    places_of(&mut places, recorded, found, &plan);
    certificate_item(&on, &places, certificate)
}

// The first of all items of a check that applies.
fn first_item(
    table: &[u8],
    recorded: &[u8],
    found: &[u8],
    certificate: &[u8],
) -> Result<(), Refusal>
    ensures { refusal_in result ≡ check_of table.now recorded.now found.now certificate.now }
{
    input_item(table, recorded, found)?;
    planned_item(table, recorded, found, certificate)
}

// Entry point.
// Checks a certificate: 0 for accepted, else the number of the item that refused it.
#[unsafe(no_mangle)]
pub extern "C" fn check_certificate(
    table: &[u8],
    recorded: &[u8],
    found: &[u8],
    certificate: &[u8],
) -> u32
    ensures { result ≡ check_of table.now recorded.now found.now certificate.now }
{
    let answer = first_item(table, recorded, found, certificate);
    u32::from(refusal_in(answer))
}
