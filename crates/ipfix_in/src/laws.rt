//! Laws of the definitions, which hold of every message.

ghost use Rattle.std.specs.Prelude.{◌≡◌, ◌≤◌, ◌++◌, List, length, ℕ};
ghost use Rattle.acct_types.specs.declared.addr.Addr.{Addr};
ghost use Rattle.flow_templates.specs.Known.{Known};
ghost use Rattle.ipfix_in.specs.Message.{decoded_ipfix, length_of};

/// Octets past a message's length change nothing, be it accepted or refused.
pub fn octets_past_the_length_change_nothing()
    ensures { (known : Known) (exporter : Addr) (octets more : List ℕ) → 16 ≤ length octets → length_of octets ≤ length octets
        → decoded_ipfix known exporter (octets ++ more) ≡ decoded_ipfix known exporter octets }
{}
