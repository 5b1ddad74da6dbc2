ghost use Rattle.std.specs.Prelude.{◌^◌};
ghost use Rattle.acct_types.specs.Counts.{IsBelow};

use crate::{Counts, Key, List};

/// What a plugin is given of a record: its datagram in the input and its place there, both from 1, the moment in
/// milliseconds, and what is counted under which key. Each count is below 2^96.
#[derive(Debug, Drop)]
pub struct Item {
    pub datagram: u64,
    pub row: u32,
    pub moment: u64,
    pub key: Key,
    pub counts: Counts,
    pub ghost small: { IsBelow (2 ^ 96) counts },
}

/// What a plugin writes at once: the number of its window, and the rows in the order of their keys.
#[derive(Debug, Drop)]
pub struct Purge {
    pub window: u64,
    pub rows: List<(Key, Counts)>,
}
