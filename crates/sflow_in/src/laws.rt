//! Laws of the definitions, which hold of every datagram.

ghost use Rattle.std.specs.Prelude.{◌≡◌, ◌≤◌, ◌<◌, ◌+◌, ◌%◌, ◌++◌, All, List, Ok, length, ℕ};
ghost use Rattle.acct_types.specs.declared.addr.Addr.{Addr};
ghost use Rattle.flow_templates.specs.Decoding.{Said};
ghost use Rattle.sflow_in.specs.Datagram.{decoded_sflow, sample_count};
ghost use Rattle.sflow_in.specs.Xdr.{padded};

/// Opaque octets are padded to the least multiple of four that holds them (RFC 4506, 4.10).
pub fn padding_is_least()
    ensures { (count : ℕ) → (padded count % 4 ≡ 0) × (count ≤ padded count) × (padded count < count + 4) }
{}

/// Each sample of a datagram gives at most one record or notice, and each notice has the number of a sample.
pub fn samples_give_one_each()
    ensures { (exporter : Addr) (octets : List ℕ) (said : Said) → decoded_sflow exporter octets ≡ Ok said
        → (length said.rows + length said.notices ≤ sample_count octets)
        × All (λ notice. (1 ≤ notice.set) × (notice.set ≤ sample_count octets)) said.notices }
{}

/// Octets past the samples of a datagram change nothing.
pub fn what_follows_the_samples_is_ignored()
    ensures { (exporter : Addr) (octets more : List ℕ) (said : Said) → decoded_sflow exporter octets ≡ Ok said
        → decoded_sflow exporter (octets ++ more) ≡ Ok said }
{}
