ghost use Rattle.std.specs.Prelude.{◌≡◌, ◌≤◌};
ghost use Rattle.out_text.specs.Headings.{json_name_of, name_of, width_of};

use acct_types::Column;

/// What a row has side by side: the cells of its columns, and counts.
#[derive(Clone, Copy)]
pub enum Field {
    Column(Column),
    Packets,
    Flows,
    Bytes,
}

/// How a field is named and how wide it is.
#[derive(Clone, Copy)]
pub struct Heading<'a> {
    /// The name in a header line.
    pub name: &'a str,
    /// The name in an object.
    pub json_name: &'a str,
    /// To how many octets the formatted layout pads the field.
    pub width: usize,
}

/// To how many octets the widest field is padded.
pub const WIDEST: usize = 39;

impl Field {
    /// The heading, by the table of all fields.
    #[tactic(auto, unfolding(crate::specs::Headings::titles_of))]
    pub fn heading<'a>(self) -> Heading<'a>
        ensures name { result.name.now ≡ name_of self }
        ensures json_name { result.json_name.now ≡ json_name_of self }
        ensures width { result.width ≡ width_of self }
        ensures narrow { result.width ≤ WIDEST }
    {
        let (name, json_name, width) = match self {
            Field::Column(column) => match column {
                Column::Tag => ("TAG", "tag", 20),
                Column::Tag2 => ("TAG2", "tag2", 20),
                Column::Label => ("LABEL", "label", 24),
                Column::AcctWindow => ("WINDOW", "window", 20),
                Column::SrcMac => ("SRC_MAC", "mac_src", 17),
                Column::DstMac => ("DST_MAC", "mac_dst", 17),
                Column::Vlan => ("VLAN", "vlan", 5),
                Column::SrcAs => ("SRC_AS", "as_src", 10),
                Column::DstAs => ("DST_AS", "as_dst", 10),
                Column::StdComm => ("COMMS", "comms", 24),
                Column::AsPath => ("AS_PATH", "as_path", 24),
                Column::LocalPref => ("LOCAL_PREF", "local_pref", 10),
                Column::Med => ("MED", "med", 10),
                Column::PeerDstAs => ("PEER_DST_AS", "peer_as_dst", 11),
                Column::PeerSrcIp => ("PEER_SRC_IP", "peer_ip_src", 39),
                Column::PeerDstIp => ("PEER_DST_IP", "peer_ip_dst", 39),
                Column::InIface => ("IN_IFACE", "iface_in", 10),
                Column::OutIface => ("OUT_IFACE", "iface_out", 10),
                Column::SrcHost => ("SRC_IP", "ip_src", 39),
                Column::DstHost => ("DST_IP", "ip_dst", 39),
                Column::SrcNet => ("SRC_NET", "net_src", 39),
                Column::DstNet => ("DST_NET", "net_dst", 39),
                Column::SrcMask => ("SRC_MASK", "mask_src", 8),
                Column::DstMask => ("DST_MASK", "mask_dst", 8),
                Column::SrcPort => ("SRC_PORT", "port_src", 8),
                Column::DstPort => ("DST_PORT", "port_dst", 8),
                Column::Proto => ("PROTOCOL", "ip_proto", 8),
                Column::Tos => ("TOS", "tos", 3),
            },
            Field::Packets => ("PACKETS", "packets", 20),
            Field::Flows => ("FLOWS", "flows", 20),
            Field::Bytes => ("BYTES", "bytes", 0),
        };
        Heading {
            name,
            json_name,
            width,
        }
    }
}
