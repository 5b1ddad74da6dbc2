ghost use Rattle.std.specs.Prelude.{◌≡◌};
ghost use Rattle.pretag_map.specs.TagRules.{no_tags};

use acct_types::Addr;

/// What the conditions of a rule are asked of. A number that the record lacks is 0, and an address 0.0.0.0.
#[derive(Clone, Copy, Debug, PartialEq, Eq)]
pub struct TagFacts {
    pub exporter: Addr,
    pub source_id: u32,
    pub in_iface: u64,
    pub out_iface: u64,
    pub src_as: u64,
    pub dst_as: u64,
    pub src: Addr,
    pub dst: Addr,
}

/// What a record is tagged with: two numbers, 0 where no rule gives one, and the number of the rule that has its label.
#[derive(Clone, Copy, Debug, PartialEq, Eq)]
pub struct Tags {
    pub tag: u64,
    pub tag2: u64,
    pub label: Option<u32>,
}

impl Tags {
    /// What a record is tagged with where no rule holds of it.
    pub fn none() -> Tags
        ensures { result ≡ no_tags }
    {
        Tags {
            tag: 0,
            tag2: 0,
            label: None,
        }
    }
}
