//! The values that the collector's crates hand to each other.
#![tactic(auto)]

mod addr;
mod address_text;
mod cell;
mod choice;
mod datagram;
mod decimal;
mod flow;
mod hashing;
mod item;
mod key;
mod list;
mod memory;
pub mod numbers;
mod order;
mod packed;
mod prefix;
mod primitives;
mod reading;
mod rib;
mod route;
mod route_event;
mod update;

pub use addr::Addr;
pub use address_text::AddressText;
pub use cell::{Cell, CellRef};
pub use choice::{AsFrom, Layout};
pub use datagram::Datagram;
pub use decimal::append_decimal;
pub use flow::{Counts, FlowRecord, counts_add_up};
pub use hashing::Hashing;
pub use item::{Item, Purge};
pub use key::{Cells, Key};
pub use list::{List, Octets, Text};
pub use memory::NoMemory;
pub use order::{
    addresses_are_ordered, columns_are_in_order, keys_are_ordered, prefixes_are_ordered,
    sources_are_ordered,
};
pub use prefix::Prefix;
pub use primitives::{Column, Primitives};
pub use reading::{read_address, spellings_are_read, texts_are_read};
pub use rib::{PeerKey, Rib, RibSource, RouteScope};
pub use route::{Hop, RouteAttrs, RouteRef};
pub use route_event::{Act, Reply, RouteEvent, Side};
pub use update::{Announce, Change, Nlri, RouteMessage, Update};
