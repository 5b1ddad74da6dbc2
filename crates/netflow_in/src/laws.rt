//! Laws of the definitions, which hold of every datagram.

ghost use Rattle.std.specs.Prelude.{◌≡◌, ◌≤◌, ◌++◌, List, Ok, length, ℕ};
ghost use Rattle.acct_types.specs.declared.addr.Addr.{Addr};
ghost use Rattle.flow_templates.specs.declared.decoded.RawRecord.{RawRecord};
ghost use Rattle.netflow_in.specs.Version5.{count_of, decoded_v5};

/// A datagram of version 5 gives as many records as its header counts, from 1 to 30.
pub fn version5_gives_the_records_it_counts()
    ensures { (exporter : Addr) (octets : List ℕ) (rows : List RawRecord) → decoded_v5 exporter octets ≡ Ok rows
        → (length rows ≡ count_of octets) × (1 ≤ length rows) × (length rows ≤ 30) }
{}

/// Octets past the records of a datagram of version 5 change nothing.
pub fn version5_ignores_what_follows_its_records()
    ensures { (exporter : Addr) (octets more : List ℕ) (rows : List RawRecord) → decoded_v5 exporter octets ≡ Ok rows
        → decoded_v5 exporter (octets ++ more) ≡ Ok rows }
{}
