//! Items 21 and 22: the certificate's mapping and its weight.
ghost use Rattle.std.specs.Prelude.{◌≡◌, length};
ghost use Rattle.model.specs.Certificate.{certificate_length};
ghost use Rattle.model.specs.Refusals.{refusal_in};
ghost use Rattle.check_front.specs.Weighing.{PartnersOf, mapping_item};

use integers::int32_at;
use mappings::mapping_ok;
use mappings::weigh::weigh;
use model::{Mapping, Refusal};
use plan::instance::Instance;

// The first of the items 21 and 22 that applies. The certificate has the right length, and its partners are p.
pub fn mapping_item(on: &Instance, z: &[u8], p: &Mapping) -> Result<(), Refusal>
    requires z_len { length z.now ≡ certificate_length on.now.recorded.now on.now.found.now }
    requires partners_of { PartnersOf on.now.recorded.now z.now p.now }
    ensures { refusal_in result ≡ mapping_item on.now.table.now on.now.recorded.now on.now.found.now z.now }
{
    if !mapping_ok(on, p) {
        return Err(Refusal::CertificateMapping);
    }
    let w = weigh(on, p);
    let v = int32_at(z, 4);
    if v != w {
        return Err(Refusal::CertificateWeight);
    }
    Ok(())
}
