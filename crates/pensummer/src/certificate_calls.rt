//! The C interface of certificates: writing one, and checking one.
ghost use Rattle.std.specs.Prelude.{◌≡◌};
ghost use Rattle.model.specs.Certificate.{check_of};
ghost use Rattle.call_numbers.specs.Exported.{Writes};

use answer_numbers::certificate_numbers::WriteResult;
use call_numbers::certificate_numbers::write_numbers;

// Entry point.
// Writes a certificate into the front of `certificate`.
#[unsafe(no_mangle)]
pub extern "C" fn pensummer_write(
    table: &[u8],
    recorded: &[u8],
    found: &[u8],
    work: &mut [i32],
    certificate: &mut [u8],
) -> WriteResult
    ensures { Writes table.now recorded.now found.now work.old certificate.old work.new certificate.new result.refusal result.length }
{
    write_numbers(table, recorded, found, work, certificate)
}

// Entry point.
// Checks a certificate: 0 for accepted, else the item that refused it. What an accepted one shows: `certificate_sound` (crates/certificate).
#[unsafe(no_mangle)]
pub extern "C" fn pensummer_check(
    table: &[u8],
    recorded: &[u8],
    found: &[u8],
    certificate: &[u8],
) -> u32
    ensures { result ≡ check_of table.now recorded.now found.now certificate.now }
{
    check_reader::check_certificate(table, recorded, found, certificate)
}
