/// How a purge is printed.
#[derive(Clone, Copy, Debug, PartialEq, Eq)]
pub enum Layout {
    /// Columns of fixed widths.
    Formatted,
    /// Values separated by commas, with a header line.
    Csv,
    /// One object on a line.
    Json,
}

/// Where the routing parts of a record come from.
#[derive(Clone, Copy, Debug, PartialEq, Eq)]
pub enum AsFrom {
    /// From what was exported, be it NetFlow, IPFIX or sFlow.
    Export,
    /// From the routes of the exporter's BGP session.
    Bgp,
    /// From the routes of the exporter's BMP router.
    Bmp,
}
