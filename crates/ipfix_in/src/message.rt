//! IPFIX messages (RFC 7011).

ghost use Rattle.std.specs.Prelude.{◌≡◌, ◌≤◌, ◌^◌, All, Err, length, IfOk};
ghost use Rattle.acct_types.specs.Counts.{IsBelow};
ghost use Rattle.flow_templates.specs.Changes.{nothing_staged};
ghost use Rattle.flow_templates.specs.declared.refusal.Undecodable.TheVariants as undecodable;
ghost use Rattle.flow_templates.specs.Decoding.{Gives};
ghost use Rattle.flow_templates.specs.Known.{known_in};
ghost use Rattle.ipfix_in.specs.Message.{AcceptsSomeSets, decoded_ipfix, domain_of};

use acct_types::Addr;
use acct_types::numbers::{after, u16_at, u32_at};
use flow_sets::read_sets;
use flow_templates::{Cause, Domain, RawDecoded, Staged, Stores, Undecodable};
use std::alloc::Global;

const HEADER: usize = 16;

fn domain_of(exporter: Addr, octets: &[u8]) -> Domain
    requires { 16 ≤ length octets.now }
    ensures { result ≡ domain_of exporter octets.now }
{
    Domain {
        exporter,
        version: 10,
        id: u32_at(octets, 12),
    }
}

/// The records and notices of an IPFIX message (RFC 7011, 3), by the templates and rates that the stores know and by those
/// that come in the message, which are staged. It is refused with Short below 2 octets, with Version for any other
/// version than 10, with Short below the header's 16 octets, with IpfixLength for a length below 16 or above the octets there,
/// and with the first cause in its sets. Octets past the message's length are ignored. After a refusal what is staged
/// means nothing.
#[tactic(auto, unfolding(crate::specs::Message::decoded_ipfix))]
pub fn decode_ipfix(
    alloc: Global,
    stores: &Stores,
    staged: &mut Staged,
    exporter: &Addr,
    octets: &[u8],
) -> Result<RawDecoded, Undecodable>
    requires unstaged { staged.old ≡ nothing_staged }
    requires fits { length octets.now ≤ 65535 }
    ensures answer { Gives result staged.new (decoded_ipfix (known_in stores.now) exporter.now octets.now) }
    ensures memory { result ≡ Err undecodable.NoMemory → AcceptsSomeSets (known_in stores.now) exporter.now octets.now }
    ensures few { IfOk result (λ decoded. length decoded.rows ≤ length octets.now) }
    ensures counts { IfOk result (λ decoded. All (λ row. IsBelow (2 ^ 64) row.flow.counts) decoded.rows) }
{
    if octets.len() < 2 {
        return Err(Undecodable::Refused(Cause::Short));
    }
    let version = u16_at(octets, 0);
    if version != 10 {
        return Err(Undecodable::Refused(Cause::Version(u32::from(version))));
    }
    if octets.len() < HEADER {
        return Err(Undecodable::Refused(Cause::Short));
    }
    let length = usize::from(u16_at(octets, 2));
    if length < HEADER || octets.len() < length {
        return Err(Undecodable::Refused(Cause::IpfixLength));
    }
    let domain = domain_of(*exporter, octets);
    read_sets(
        alloc,
        stores,
        staged,
        &domain,
        after(&octets[..length], HEADER),
    )
}
