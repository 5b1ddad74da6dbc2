use crate::{Addr, Text};

/// What a record has in one column.
#[derive(Debug, PartialEq, Eq, PartialOrd, Ord, Hash, Drop)]
pub enum Cell {
    Number(u64),
    Address(Addr),
    /// A MAC address, in the low 48 bits.
    Mac(u64),
    Words(Text),
}

/// A cell that is read where it lies.
#[derive(Clone, Copy, Debug, PartialEq, Eq)]
pub enum CellRef<'a> {
    Number(u64),
    Address(Addr),
    Mac(u64),
    Words(&'a [u8]),
}
