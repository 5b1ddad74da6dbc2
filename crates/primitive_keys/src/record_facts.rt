ghost use Rattle.std.specs.Prelude.{◌≡◌};
ghost use Rattle.std.specs.Option.{option_copied, option_map};
ghost use Rattle.acct_types.specs.StandingRoutes.{route_ref_view};
ghost use Rattle.primitive_keys.specs.Facts.{facts_of};

use crate::routing::system_of;
use crate::values::{address_in, number_in};
use acct_types::{AsFrom, FlowRecord, RouteRef};
use pretag_map::TagFacts;

/// What rules of tags are asked of: the record's parts, with its source's and destination's systems as they are counted, by
/// the routes to both addresses. Takes no memory.
pub fn facts(
    r: &FlowRecord,
    from: AsFrom,
    src: Option<&RouteRef<'_>>,
    dst: Option<&RouteRef<'_>>,
) -> TagFacts
    ensures { result ≡ facts_of r.now from (option_map route_ref_view (option_copied src.entry)) (option_map route_ref_view (option_copied dst.entry)) }
{
    TagFacts {
        exporter: r.exporter,
        source_id: r.source_id,
        in_iface: number_in(r.in_iface),
        out_iface: number_in(r.out_iface),
        src_as: system_of(from, r.src_as, src),
        dst_as: system_of(from, r.dst_as, dst),
        src: address_in(r.src),
        dst: address_in(r.dst),
    }
}
