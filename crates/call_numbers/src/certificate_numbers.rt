//! Writing a certificate, with its answer as numbers.
ghost use Rattle.call_numbers.specs.Exported.{Writes};

use answer_numbers::certificate_numbers::WriteResult;

// Writes a certificate into the front of `certificate`.
pub fn write_numbers(
    table: &[u8],
    recorded: &[u8],
    found: &[u8],
    work: &mut [i32],
    certificate: &mut [u8],
) -> WriteResult
    ensures { Writes table.now recorded.now found.now work.old certificate.old work.new certificate.new result.refusal result.length }
{
    let a = write::write_certificate(table, recorded, found, work, certificate);
    a.into()
}
