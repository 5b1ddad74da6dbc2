//! BGP-4 messages (RFC 4271, 4760, 5492 and 6793): their frames, their reader, and the writers of what a speaker sends that announces
//! no route. The section "BGP" of docs/PROFILE.md says what is refused, and what is read of the rest.
#![tactic(auto)]

mod add_path;
mod attributes;
mod bmp_fault;
mod families;
mod header;
mod laws;
mod message;
mod open;
mod paths;
mod pieces;
mod prefixes;
mod read;
mod update;
mod values;
mod write;

pub use bmp_fault::BmpFault;
pub use header::frame;
pub use laws::{
    a_message_stands_alone, lists_are_read_as_they_are_spelled, what_follows_changes_nothing,
    what_is_written_is_read,
};
pub use message::{AddPath, Agreed, BgpFault, BgpMessage, BgpRefusal, Hello};
pub use read::read_message;
pub use write::{write_keepalive, write_notification, write_open};
