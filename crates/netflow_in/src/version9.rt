//! NetFlow version 9 (RFC 3954).

ghost use Rattle.std.specs.Prelude.{◌≡◌, ◌≤◌, ◌^◌, All, Err, length, IfOk};
ghost use Rattle.acct_types.specs.Counts.{IsBelow};
ghost use Rattle.flow_templates.specs.Changes.{nothing_staged};
ghost use Rattle.flow_templates.specs.declared.refusal.Undecodable.TheVariants as undecodable;
ghost use Rattle.flow_templates.specs.Decoding.{Gives};
ghost use Rattle.flow_templates.specs.Known.{known_in};
ghost use Rattle.netflow_in.specs.Version9.{AcceptsSomeSets, decoded_v9, domain_of};

use acct_types::Addr;
use acct_types::numbers::{after, u16_at, u32_at};
use flow_sets::read_sets;
use flow_templates::{Cause, Domain, RawDecoded, Staged, Stores, Undecodable};
use std::alloc::Global;

const HEADER: usize = 20;

fn domain_of(exporter: Addr, octets: &[u8]) -> Domain
    requires { 20 ≤ length octets.now }
    ensures { result ≡ domain_of exporter octets.now }
{
    Domain {
        exporter,
        version: 9,
        id: u32_at(octets, 16),
    }
}

/// The records and notices of a datagram of version 9 (RFC 3954, 5), by the templates and rates that the stores know and by those that
/// come in the datagram, which are staged. It is refused with Short below 2 octets, with Version for any other version,
/// with Short below the header's 20 octets, and with the first cause in its sets. The header's count isn't judged. After
/// a refusal what is staged means nothing.
#[tactic(auto, unfolding(crate::specs::Version9::decoded_v9))]
pub fn decode_v9(
    alloc: Global,
    stores: &Stores,
    staged: &mut Staged,
    exporter: &Addr,
    octets: &[u8],
) -> Result<RawDecoded, Undecodable>
    requires unstaged { staged.old ≡ nothing_staged }
    requires fits { length octets.now ≤ 65535 }
    ensures answer { Gives result staged.new (decoded_v9 (known_in stores.now) exporter.now octets.now) }
    ensures memory { result ≡ Err undecodable.NoMemory → AcceptsSomeSets (known_in stores.now) exporter.now octets.now }
    ensures few { IfOk result (λ decoded. length decoded.rows ≤ length octets.now) }
    ensures counts { IfOk result (λ decoded. All (λ row. IsBelow (2 ^ 64) row.flow.counts) decoded.rows) }
{
    if octets.len() < 2 {
        return Err(Undecodable::Refused(Cause::Short));
    }
    let version = u16_at(octets, 0);
    if version != 9 {
        return Err(Undecodable::Refused(Cause::Version(u32::from(version))));
    }
    if octets.len() < HEADER {
        return Err(Undecodable::Refused(Cause::Short));
    }
    let domain = domain_of(*exporter, octets);
    read_sets(alloc, stores, staged, &domain, after(octets, HEADER))
}
