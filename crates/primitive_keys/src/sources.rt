ghost use Rattle.std.specs.Prelude.{◌≡◌, ◌++◌, ◌∷◌, [], true, IfSome, OnOk};
ghost use Rattle.std.specs.Option.{option_copied, option_map};
ghost use Rattle.acct_types.specs.StandingRoutes.{route_ref_view};
ghost use Rattle.acct_types.specs.declared.cell.Cell.TheVariants as cell;
ghost use Rattle.pretag_map.specs.Labels.{is_label};
ghost use Rattle.primitive_keys.specs.Keys.{cell_in};
ghost use Rattle.primitive_keys.specs.Routing.{chosen, communities_of, path_of};
ghost use Rattle.primitive_keys.specs.Values.{words_in};

use crate::routing::{
    first_system, local_pref_of, mask_of, med_of, next_hop_in, route_in, system_of,
};
use crate::values::{address_in, mac_in, net_of, number_in};
use acct_types::{AsFrom, Column, FlowRecord, Key, NoMemory, RouteRef, Text};
use pretag_map::{Tags, labels_are_plain};
use std::alloc::Global;

/// All that the cells of a record are made of.
#[derive(Clone, Copy)]
pub struct Sources<'a> {
    pub alloc: Global,
    pub record: &'a FlowRecord,
    pub from: AsFrom,
    pub src: Option<&'a RouteRef<'a>>,
    pub dst: Option<&'a RouteRef<'a>>,
    pub tags: &'a Tags,
    pub label: Option<&'a Text>,
    pub window: u64,
}

impl Sources<'_> {
    /// Adds the cell of a column.
    pub fn push(&self, key: &mut Key, column: Column) -> Result<(), NoMemory>
        requires { IfSome self.now.label (λ words. is_label words.now ≡ true) }
        ensures { OnOk result (key.new ≡ key.old ++ cell_in self.now.record.now self.now.from
            (option_map route_ref_view (option_copied self.now.src)) (option_map route_ref_view (option_copied self.now.dst)) self.now.tags.now
            (option_copied self.now.label) self.now.window column ∷ []) }
    {
        let (r, from) = (self.record, self.from);
        match column {
            Column::Tag => key.push_number(self.tags.tag),
            Column::Tag2 => key.push_number(self.tags.tag2),
            Column::Label => push_label(key, self.label),
            Column::AcctWindow => key.push_number(self.window),
            Column::SrcMac => key.push_mac(mac_in(r.src_mac)),
            Column::DstMac => key.push_mac(mac_in(r.dst_mac)),
            Column::Vlan => key.push_number(number_in(r.vlan)),
            Column::SrcAs => key.push_number(system_of(from, r.src_as, self.src)),
            Column::DstAs => key.push_number(system_of(from, r.dst_as, self.dst)),
            Column::StdComm => push_communities(self.alloc, key, route_in(from, self.dst)),
            Column::AsPath => push_path(self.alloc, key, route_in(from, self.dst)),
            Column::LocalPref => key.push_number(local_pref_of(route_in(from, self.dst))),
            Column::Med => key.push_number(med_of(route_in(from, self.dst))),
            Column::PeerDstAs => key.push_number(first_system(route_in(from, self.dst))),
            Column::PeerSrcIp => key.push_address(r.exporter),
            Column::PeerDstIp => key.push_address(next_hop_in(from, r.bgp_next_hop, self.dst)),
            Column::InIface => key.push_number(number_in(r.in_iface)),
            Column::OutIface => key.push_number(number_in(r.out_iface)),
            Column::SrcHost => key.push_address(address_in(r.src)),
            Column::DstHost => key.push_address(address_in(r.dst)),
            Column::SrcNet => key.push_address(net_of(
                mask_of(from, r.src_mask, self.src),
                address_in(r.src),
            )),
            Column::DstNet => key.push_address(net_of(
                mask_of(from, r.dst_mask, self.dst),
                address_in(r.dst),
            )),
            Column::SrcMask => key.push_number(mask_of(from, r.src_mask, self.src)),
            Column::DstMask => key.push_number(mask_of(from, r.dst_mask, self.dst)),
            Column::SrcPort => key.push_number(number_in(r.src_port)),
            Column::DstPort => key.push_number(number_in(r.dst_port)),
            Column::Proto => key.push_number(number_in(r.proto)),
            Column::Tos => key.push_number(number_in(r.tos)),
        }
    }
}

fn push_label(key: &mut Key, label: Option<&Text>) -> Result<(), NoMemory>
    requires { IfSome label (λ words. is_label words.now ≡ true) }
    ensures { OnOk result (key.new ≡ key.old ++ cell.Words (words_in (option_copied label.entry)) ∷ []) }
{
    match label {
        Some(label) => {
            labels_are_plain();
            key.push_words(label.as_slice())
        }
        None => key.push_words(&[]),
    }
}

fn push_path(alloc: Global, key: &mut Key, route: Option<&RouteRef<'_>>) -> Result<(), NoMemory>
    ensures { OnOk result (key.new ≡ key.old ++ cell.Words (path_of (option_map route_ref_view (option_copied route.entry))) ∷ []) }
{
    let Some(route) = route else {
        return key.push_words(&[]);
    };
    let mut text = Text::new(alloc);
    route.attrs.append_path_text(&mut text)?;
    key.push_words(text.as_slice())
}

fn push_communities(
    alloc: Global,
    key: &mut Key,
    route: Option<&RouteRef<'_>>,
) -> Result<(), NoMemory>
    ensures { OnOk result (key.new ≡ key.old ++ cell.Words (communities_of (option_map route_ref_view (option_copied route.entry))) ∷ []) }
{
    let Some(route) = route else {
        return key.push_words(&[]);
    };
    let mut text = Text::new(alloc);
    route.attrs.append_communities_text(&mut text)?;
    key.push_words(text.as_slice())
}
